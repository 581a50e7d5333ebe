ghost use Rattle.std.specs.Prelude.{◌≡◌, ◌++◌, ◌<◌, OnOk};
ghost use Rattle.script_text.specs.Texts.{damaged_part_text, damaged_text, hex_digit, hex_text, load_place, load_text, load_word, outside_text, place_text, shown_text};

use crate::pieces::{put_bytes, put_counted, put_number};
use dev_traits::{Damaged, OutsideFault, Part, Shown};
use load_csv::LoadFault;
use std::alloc::AllocError;

fn hex_digit(nibble: u8) -> u8
    requires { nibble < 16 }
    ensures { result ≡ hex_digit nibble }
{
    if nibble < 10 {
        48 + nibble
    } else {
        87 + nibble
    }
}

// Appends bytes in hexadecimal.
fn put_hex(out: &mut Vec<u8>, bytes: &[u8]) -> Result<(), AllocError>
    ensures { OnOk result (out.new.items ≡ out.old.items ++ hex_text bytes.now) }
{
    for byte in bytes {
        out.push(hex_digit(*byte / 16))?;
        out.push(hex_digit(*byte % 16))?;
    }
    Ok(())
}

fn put_place(out: &mut Vec<u8>, part: Part) -> Result<(), AllocError>
    ensures { OnOk result (out.new.items ≡ out.old.items ++ place_text part) }
{
    match part {
        Part::Footer => put_bytes(out, b"footer"),
        Part::Block(block) => put_counted(out, b"block ", u64::from(block)),
        Part::Bucket(bucket) => put_counted(out, b"bucket ", bucket),
        Part::Area(area) => put_counted(out, b"area ", u64::from(area)),
    }
}

fn put_shown(out: &mut Vec<u8>, shown: Shown) -> Result<(), AllocError>
    ensures { OnOk result (out.new.items ≡ out.old.items ++ shown_text shown) }
{
    match shown {
        Shown::Digests { kept, found } => {
            put_bytes(out, b"kept ")?;
            put_hex(out, &kept.bytes)?;
            put_bytes(out, b" found ")?;
            put_hex(out, &found.bytes)
        }
        Shown::Form => put_bytes(out, b"form"),
        Shown::Absent => put_bytes(out, b"absent"),
    }
}

// Appends which part is damaged.
fn put_damaged_part(out: &mut Vec<u8>, file: u64, part: Part) -> Result<(), AllocError>
    ensures { OnOk result (out.new.items ≡ out.old.items ++ damaged_part_text file part) }
{
    put_counted(out, b"damaged file ", file)?;
    put_bytes(out, b" ")?;
    put_place(out, part)
}

/// Appends what is damaged and how that shows.
pub fn put_damaged(out: &mut Vec<u8>, damaged: Damaged) -> Result<(), AllocError>
    ensures { OnOk result (out.new.items ≡ out.old.items ++ damaged_text damaged) }
{
    put_damaged_part(out, damaged.file, damaged.part)?;
    put_bytes(out, b" ")?;
    put_shown(out, damaged.shown)
}

fn load_word(fault: LoadFault) -> &'static [u8]
    ensures { result.now ≡ load_word fault }
{
    match fault {
        LoadFault::NoHeader => b"load-fault no-header",
        LoadFault::UnknownName(_) => b"load-fault unknown-name column ",
        LoadFault::NameTwice(_) => b"load-fault name-twice column ",
        LoadFault::Missing(_) => b"load-fault missing column ",
        LoadFault::NoDefault(_) => b"load-fault no-default column ",
        LoadFault::ManyRows => b"load-fault many-rows",
        LoadFault::Width(_) => b"load-fault width row ",
        LoadFault::BadOp(_) => b"load-fault bad-op row ",
        LoadFault::BadCell(_, _) => b"load-fault bad-cell row ",
        LoadFault::KeyTooLong(_, _) => b"load-fault key-too-long row ",
        LoadFault::Memory => b"memory",
    }
}

// Appends where a fault of a load is.
fn put_load_place(out: &mut Vec<u8>, fault: LoadFault) -> Result<(), AllocError>
    ensures { OnOk result (out.new.items ≡ out.old.items ++ load_place fault) }
{
    match fault {
        LoadFault::NoHeader | LoadFault::ManyRows | LoadFault::Memory => Ok(()),
        LoadFault::UnknownName(column)
        | LoadFault::NameTwice(column)
        | LoadFault::Missing(column)
        | LoadFault::NoDefault(column) => put_number(out, u64::from(column)),
        LoadFault::Width(row) | LoadFault::BadOp(row) => put_number(out, u64::from(row)),
        LoadFault::BadCell(row, column) => {
            put_number(out, u64::from(row))?;
            put_counted(out, b" column ", u64::from(column))
        }
        LoadFault::KeyTooLong(row, length) => {
            put_number(out, u64::from(row))?;
            put_counted(out, b" length ", length)
        }
    }
}

/// Appends why a file was not loaded.
pub fn put_load(out: &mut Vec<u8>, fault: LoadFault) -> Result<(), AllocError>
    ensures { OnOk result (out.new.items ≡ out.old.items ++ load_text fault) }
{
    put_bytes(out, load_word(fault))?;
    put_load_place(out, fault)
}

/// Appends a fault outside a turn.
pub fn put_outside(out: &mut Vec<u8>, fault: OutsideFault) -> Result<(), AllocError>
    ensures { OnOk result (out.new.items ≡ out.old.items ++ outside_text fault) }
{
    match fault {
        OutsideFault::Fault => put_bytes(out, b"fault"),
        OutsideFault::Damaged(damaged) => put_damaged(out, damaged),
        OutsideFault::Memory => put_bytes(out, b"memory"),
    }
}
