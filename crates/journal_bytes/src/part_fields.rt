ghost use Rattle.std.specs.Prelude.{◌≡◌, ◌++◌, OnOk};
ghost use Rattle.value_bytes.specs.Fields.{both, counted, u16 as u16_field, u32 as u32_field};
ghost use Rattle.value_bytes.specs.Writes.{KeepsFront};

use journal_form::{DeadRows, LevelFile, LevelList, ListedFile, NewFile};
use pk_values::Items;
use std::alloc::{AllocError, Global};
use value_bytes::{
    FieldReader, FieldWriter, U16, Unread, put_list, put_u32, put_u64, read_list, read_u32,
    read_u64,
};

// A file that a record brings.
pub(crate) struct NewFileField;

impl FieldReader for NewFileField {
    ghost use Rattle.journal_bytes.specs.Records.{new_file};
    ghost use Rattle.journal_bytes.specs.RecordsTell.{new_file-tells};

    type Value = NewFile;

    ghost field = { new_file };

    fn read(_alloc: Global, bytes: &[u8]) -> Result<(NewFile, &[u8]), Unread> {
        match read_u64(bytes) {
            Ok((file, rest)) => match read_u32(rest) {
                Ok((rows, left)) => Ok((NewFile { file, rows }, left)),
                Err(fault) => Err(fault),
            },
            Err(fault) => Err(fault),
        }
    }

    ghost tells = { new_file-tells };
}

impl FieldWriter for NewFileField {
    ghost use Rattle.journal_bytes.specs.Records.{new_file};

    type Value = NewFile;

    ghost field = { new_file };

    fn put(_alloc: Global, out: &mut Vec<u8>, value: &NewFile) -> Result<(), AllocError> {
        put_u64(out, value.file)?;
        put_u32(out, value.rows)
    }
}

// The dead rows of a file.
pub(crate) struct DeadRowsField;

impl FieldReader for DeadRowsField {
    ghost use Rattle.journal_bytes.specs.Records.{dead_rows};
    ghost use Rattle.journal_bytes.specs.RecordsTell.{dead_rows-tells};

    type Value = DeadRows;

    ghost field = { dead_rows };

    fn read(alloc: Global, bytes: &[u8]) -> Result<(DeadRows, &[u8]), Unread> {
        match read_u64(bytes) {
            Ok((file, rest)) => match read_list::<U16>(alloc, rest) {
                Ok((rows, left)) => Ok((DeadRows { file, rows }, left)),
                Err(fault) => Err(fault),
            },
            Err(fault) => Err(fault),
        }
    }

    ghost tells = { dead_rows-tells };
}

impl FieldWriter for DeadRowsField {
    ghost use Rattle.journal_bytes.specs.Records.{dead_rows};

    type Value = DeadRows;

    ghost field = { dead_rows };

    fn put(alloc: Global, out: &mut Vec<u8>, value: &DeadRows) -> Result<(), AllocError> {
        put_u64(out, value.file)?;
        put_list::<U16>(alloc, out, &value.rows)
    }
}

// An index file.
pub(crate) struct LevelFileField;

impl FieldReader for LevelFileField {
    ghost use Rattle.journal_bytes.specs.Records.{level_file};
    ghost use Rattle.journal_bytes.specs.RecordsTell.{level_file-tells};

    type Value = LevelFile;

    ghost field = { level_file };

    fn read(_alloc: Global, bytes: &[u8]) -> Result<(LevelFile, &[u8]), Unread> {
        match read_u64(bytes) {
            Ok((file, rest)) => match read_u64(rest) {
                Ok((base, left)) => Ok((LevelFile { file, base }, left)),
                Err(fault) => Err(fault),
            },
            Err(fault) => Err(fault),
        }
    }

    ghost tells = { level_file-tells };
}

impl FieldWriter for LevelFileField {
    ghost use Rattle.journal_bytes.specs.Records.{level_file};

    type Value = LevelFile;

    ghost field = { level_file };

    fn put(_alloc: Global, out: &mut Vec<u8>, value: &LevelFile) -> Result<(), AllocError> {
        put_u64(out, value.file)?;
        put_u64(out, value.base)
    }
}

// The index files.
pub(crate) struct LevelListField;

impl FieldReader for LevelListField {
    ghost use Rattle.journal_bytes.specs.Records.{level_list as the_list};
    ghost use Rattle.journal_bytes.specs.RecordsTell.{level_list-tells};

    type Value = LevelList;

    ghost field = { the_list };

    fn read(alloc: Global, bytes: &[u8]) -> Result<(LevelList, &[u8]), Unread> {
        match read_u64(bytes) {
            Ok((after, rest)) => match read_list::<LevelFileField>(alloc, rest) {
                Ok((files, left)) => Ok((LevelList { after, files }, left)),
                Err(fault) => Err(fault),
            },
            Err(fault) => Err(fault),
        }
    }

    ghost tells = { level_list-tells };
}

impl FieldWriter for LevelListField {
    ghost use Rattle.journal_bytes.specs.Records.{level_list};

    type Value = LevelList;

    ghost field = { level_list };

    fn put(alloc: Global, out: &mut Vec<u8>, value: &LevelList) -> Result<(), AllocError> {
        put_u64(out, value.after)?;
        put_list::<LevelFileField>(alloc, out, &value.files)
    }
}

// The rows of a file of a version, and the dead ones among them.
fn put_rows(
    alloc: Global,
    out: &mut Vec<u8>,
    rows: u32,
    dead: &Items<u16>,
) -> Result<(), AllocError>
    requires { (both u32_field (counted u32_field u16_field)).fits (rows, dead.now) }
    ensures ok { OnOk result (out.new.items ≡ out.old.items
        ++ (both u32_field (counted u32_field u16_field)).bytes (rows, dead.now)) }
    ensures before { KeepsFront out.old.items out.new.items }
{
    put_u32(out, rows)?;
    put_list::<U16>(alloc, out, dead)
}

// A file of a version.
pub(crate) struct ListedFileField;

impl FieldReader for ListedFileField {
    ghost use Rattle.journal_bytes.specs.Records.{listed_file};
    ghost use Rattle.journal_bytes.specs.RecordsTell.{listed_file-tells};

    type Value = ListedFile;

    ghost field = { listed_file };

    fn read(alloc: Global, bytes: &[u8]) -> Result<(ListedFile, &[u8]), Unread> {
        match read_u64(bytes) {
            Ok((file, rest)) => match read_u32(rest) {
                Ok((rows, last)) => match read_list::<U16>(alloc, last) {
                    Ok((dead, left)) => Ok((ListedFile { file, rows, dead }, left)),
                    Err(fault) => Err(fault),
                },
                Err(fault) => Err(fault),
            },
            Err(fault) => Err(fault),
        }
    }

    ghost tells = { listed_file-tells };
}

impl FieldWriter for ListedFileField {
    ghost use Rattle.journal_bytes.specs.Records.{listed_file};

    type Value = ListedFile;

    ghost field = { listed_file };

    fn put(alloc: Global, out: &mut Vec<u8>, value: &ListedFile) -> Result<(), AllocError> {
        put_u64(out, value.file)?;
        put_rows(alloc, out, value.rows, &value.dead)
    }
}
