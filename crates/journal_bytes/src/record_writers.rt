ghost use Rattle.std.specs.Prelude.{◌≡◌, ◌∷◌, ◌++◌, IfOk, OnOk};
ghost use Rattle.value_bytes.specs.Fields.{both, counted, u8 as byte_field, u64};
ghost use Rattle.journal_form.specs.declared.records.Record.TheVariants as told_;
ghost use Rattle.journal_bytes.specs.Records.{RecordFits, kept_bodies, levels as levels_field, listed_files, record_bytes};
ghost use Rattle.journal_bytes.specs.Schemas.{schema as schema_field};

use crate::part_fields::{DeadRowsField, LevelListField, ListedFileField, NewFileField};
use crate::schema_writers::put_schema;
use journal_form::{DeadRows, LevelList, ListedFile, NewFile, Record};
use pk_values::{Items, Octets, Schema};
use std::alloc::{AllocError, Global};
use value_bytes::{LongList, LongText, put_long_list, put_optional, put_u64};

fn write_create(alloc: Global, edit: u64, form: u8, schema: &Schema) -> Result<Vec<u8>, AllocError>
    requires { RecordFits edit (told_.Create form schema.now) }
    ensures { IfOk result (λ body. body.items ≡ record_bytes edit (told_.Create form schema.now)) }
{
    let mut out = Vec::new(alloc);
    out.push(1)?;
    put_u64(&mut out, edit)?;
    out.push(form)?;
    put_schema(alloc, &mut out, schema)?;
    Ok(out)
}

fn write_publish(
    alloc: Global,
    edit: u64,
    version: u64,
    files: &Items<NewFile>,
    changed: &Items<DeadRows>,
) -> Result<Vec<u8>, AllocError>
    requires { RecordFits edit (told_.Publish version files.now changed.now) }
    ensures { IfOk result (λ body. body.items ≡ record_bytes edit (told_.Publish version files.now changed.now)) }
{
    let mut out = Vec::new(alloc);
    out.push(2)?;
    put_u64(&mut out, edit)?;
    put_u64(&mut out, version)?;
    put_long_list::<NewFileField>(alloc, &mut out, files)?;
    put_long_list::<DeadRowsField>(alloc, &mut out, changed)?;
    Ok(out)
}

fn write_compact(
    alloc: Global,
    edit: u64,
    version: u64,
    replaced: u64,
    files: &Items<NewFile>,
    changed: &Items<DeadRows>,
    levels: &Option<LevelList>,
) -> Result<Vec<u8>, AllocError>
    requires { RecordFits edit (told_.Compact version replaced files.now changed.now levels.now) }
    ensures { IfOk result (λ body. body.items ≡ record_bytes edit (told_.Compact version replaced files.now changed.now levels.now)) }
{
    let mut out = Vec::new(alloc);
    out.push(3)?;
    put_u64(&mut out, edit)?;
    put_u64(&mut out, version)?;
    put_u64(&mut out, replaced)?;
    put_long_list::<NewFileField>(alloc, &mut out, files)?;
    put_long_list::<DeadRowsField>(alloc, &mut out, changed)?;
    put_optional::<LevelListField>(alloc, &mut out, levels)?;
    Ok(out)
}

fn write_floor(alloc: Global, edit: u64, floor: u64) -> Result<Vec<u8>, AllocError>
    requires { RecordFits edit (told_.Floor floor) }
    ensures { IfOk result (λ body. body.items ≡ record_bytes edit (told_.Floor floor)) }
{
    let mut out = Vec::new(alloc);
    out.push(4)?;
    put_u64(&mut out, edit)?;
    put_u64(&mut out, floor)?;
    Ok(out)
}

fn write_levels(alloc: Global, edit: u64, levels: &Option<LevelList>) -> Result<Vec<u8>, AllocError>
    requires { RecordFits edit (told_.Levels levels.now) }
    ensures { IfOk result (λ body. body.items ≡ record_bytes edit (told_.Levels levels.now)) }
{
    let mut out = Vec::new(alloc);
    out.push(5)?;
    put_u64(&mut out, edit)?;
    put_optional::<LevelListField>(alloc, &mut out, levels)?;
    Ok(out)
}

// The tag of a checkpoint, its edit, epoch, form and schema.
fn put_begin(
    alloc: Global,
    out: &mut Vec<u8>,
    edit: u64,
    epoch: u64,
    form: u8,
    schema: &Schema,
) -> Result<(), AllocError>
    requires { (schema_field).fits schema.now }
    ensures { OnOk result (out.new.items ≡ out.old.items ++ 6 ∷ (both u64 (both u64 (both byte_field schema_field))).bytes (edit, (epoch, (form, schema.now)))) }
{
    out.push(6)?;
    put_u64(out, edit)?;
    put_u64(out, epoch)?;
    out.push(form)?;
    put_schema(alloc, out, schema)?;
    Ok(())
}

// What a checkpoint lists.
fn put_listed(
    alloc: Global,
    out: &mut Vec<u8>,
    rowsets: &Items<Items<ListedFile>>,
    kept: &Items<Octets>,
    levels: &Option<LevelList>,
) -> Result<(), AllocError>
    requires { (both (counted u64 listed_files) (both kept_bodies levels_field)).fits (rowsets.now, (kept.now, levels.now)) }
    ensures { OnOk result (out.new.items ≡ out.old.items ++ (both (counted u64 listed_files) (both kept_bodies levels_field)).bytes (rowsets.now, (kept.now, levels.now))) }
{
    put_long_list::<LongList<ListedFileField>>(alloc, out, rowsets)?;
    put_long_list::<LongText>(alloc, out, kept)?;
    put_optional::<LevelListField>(alloc, out, levels)
}

fn write_checkpoint(
    alloc: Global,
    edit: u64,
    epoch: u64,
    form: u8,
    schema: &Schema,
    next_file: u64,
    floor: u64,
    rowsets: &Items<Items<ListedFile>>,
    kept: &Items<Octets>,
    levels: &Option<LevelList>,
) -> Result<Vec<u8>, AllocError>
    requires { RecordFits edit (told_.Checkpoint epoch form schema.now next_file floor rowsets.now kept.now levels.now) }
    ensures { IfOk result (λ body. body.items ≡ record_bytes edit (told_.Checkpoint epoch form schema.now next_file floor rowsets.now kept.now levels.now)) }
{
    let mut out = Vec::new(alloc);
    put_begin(alloc, &mut out, edit, epoch, form, schema)?;
    put_u64(&mut out, next_file)?;
    put_u64(&mut out, floor)?;
    put_listed(alloc, &mut out, rowsets, kept, levels)?;
    Ok(out)
}

/// The body of a record with an edit.
pub fn write_record(alloc: Global, edit: u64, told: &Record) -> Result<Vec<u8>, AllocError>
    requires { RecordFits edit told.now }
    ensures { IfOk result (λ body. body.items ≡ record_bytes edit told.now) }
{
    match told {
        Record::Create { form, schema } => write_create(alloc, edit, *form, schema),
        Record::Publish {
            version,
            files,
            changed,
        } => write_publish(alloc, edit, *version, files, changed),
        Record::Compact {
            version,
            replaced,
            files,
            changed,
            levels,
        } => write_compact(alloc, edit, *version, *replaced, files, changed, levels),
        Record::Floor { floor } => write_floor(alloc, edit, *floor),
        Record::Levels { levels } => write_levels(alloc, edit, levels),
        Record::Checkpoint {
            epoch,
            form,
            schema,
            next_file,
            floor,
            rowsets,
            kept,
            levels,
        } => write_checkpoint(
            alloc, edit, *epoch, *form, schema, *next_file, *floor, rowsets, kept, levels,
        ),
    }
}
