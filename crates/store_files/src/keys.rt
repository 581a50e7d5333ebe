ghost use Rattle.std.specs.Prelude.{◌≡◌, ◌+◌, ◌*◌, ◌<◌, ◌≤◌, ◌++◌, ◌∷◌, ◌==◌, [], ℕ, List, All, IfOk, IfErr, OnOk, OnErr, IsErrOf, IsTrue, Some, length, take, drop, true, false};
ghost use Rattle.std.specs.List.{list_any};
ghost use Rattle.pk_values.specs.Schemas.{fits_key, fits_row, key_of};
ghost use Rattle.pk_values.specs.declared.cells.Value.{Value};
ghost use Rattle.key_code.specs.KeyCode.{key_code};
ghost use Rattle.dev_traits.specs.Causes.{HasReadCause};
ghost use Rattle.dev_traits.specs.Reader.{SameFile};
ghost use Rattle.pk_model.specs.Lawful.{most_code_bytes};
ghost use Rattle.segment_read.specs.Reads.{KnowsFooter, OfFile, OnDamage};
ghost use Rattle.segment_read.specs.Rows.{IsSegmentOf};
ghost use Rattle.store_files.specs.Keys.{code_at, live_codes, HasLongCode, HasLive, IsKeyDamage, IsKeysDamage, IsNoShortSegment, IsWhole};

use del_vector::DelVector;
use dev_traits::{Damaged, Part, ReadFault, SealedReader, Shown};
use index_level0::{KeyBytes, Place};
use key_code::encode;
use pk_values::{Key, Row, Schema};
use segment_read::{Segment, block};
use std::alloc::Global;

/// How many rows a block has, but for a file's last one.
const BLOCK: u32 = 1024;

// Why a row's key isn't told by its code.
#[derive(Drop)]
enum KeyRefused {
    TooLong,
    Memory,
}

// The key of a row.
fn key_of_row(schema: &Schema, row: Row) -> Key
    requires { IsTrue (fits_row schema.now row) }
    ensures key { result ≡ key_of schema.now row }
    ensures fits { IsTrue (fits_key schema.now result) }
{
    let mut cells = row.cells;
    cells.truncate(schema.keys() as usize);
    Key { cells }
}

// The code of a row's key.
fn row_code(alloc: Global, schema: &Schema, row: Row) -> Result<KeyBytes, KeyRefused>
    requires { IsTrue (fits_row schema.now row) }
    ensures code { IfOk result (λ code. code ≡ key_code schema.now (key_of schema.now row)) }
    ensures long { IfErr result (λ e. most_code_bytes < length (key_code schema.now (key_of schema.now row))) }
    ensures told { IfErr result (λ e. e ≡ KeyRefused.TooLong) }
{
    let key = key_of_row(schema, row);
    match encode(alloc, schema, &key) {
        Ok(code) => Ok(code),
        Err(_) => Err(KeyRefused::TooLong),
    }
}

// Puts the code and the place of a row behind others, where the row is live.
fn add_row(
    alloc: Global,
    schema: &Schema,
    row: Row,
    place: Place,
    dead: &DelVector,
    keys: &mut Vec<(KeyBytes, Option<Place>)>,
) -> Result<(), KeyRefused>
    requires { IsTrue (fits_row schema.now row) }
    ensures added { OnOk result (keys.new.items ≡ keys.old.items ++ live_codes schema.now place.segment dead.now place.row (row ∷ [])) }
    ensures long { IsErrOf result KeyRefused.TooLong → HasLongCode schema.now dead.now place.row (row ∷ []) }
{
    if dead.contains(place.row) {
        return Ok(());
    }
    let code = row_code(alloc, schema, row)?;
    match keys.push((code, Some(place))) {
        Ok(()) => Ok(()),
        Err(_) => Err(KeyRefused::Memory),
    }
}

// Puts the codes and places of the live ones of rows, of which the first has a number, behind others.
fn add_rows(
    alloc: Global,
    schema: &Schema,
    file: u64,
    first: u32,
    dead: &DelVector,
    rows: Vec<Row>,
    keys: &mut Vec<(KeyBytes, Option<Place>)>,
) -> Result<(), KeyRefused>
    requires fit { All (λ row. IsTrue (fits_row schema.now row)) rows.items }
    requires few { first + length rows.items ≤ 65536 }
    ensures added { OnOk result (keys.new.items ≡ keys.old.items ++ live_codes schema.now file dead.now first rows.items) }
    ensures long { IsErrOf result KeyRefused.TooLong → HasLongCode schema.now dead.now first rows.items }
{
    let mut number = first;
    let mut left = rows.into_iter();
    while let Some(row) = left.next() {
        let place = Place {
            segment: file,
            row: number,
        };
        add_row(alloc, schema, row, place, dead, keys)?;
        number += 1;
    }
    Ok(())
}

// Whether one of these rows is live.
fn has_live(dead: &DelVector, from: u32, to: u32) -> bool
    ensures some { result ≡ true → (r : ℕ) × (from ≤ r) × (r < to) × (list_any (λ d. d == r) dead.now ≡ false) }
    ensures none { result ≡ false → (r : ℕ) → from ≤ r → r < to → list_any (λ d. d == r) dead.now ≡ true }
{
    for row in from..to {
        if !dead.contains(row) {
            return true;
        }
    }
    false
}

// Puts the codes and places of the live rows of a block behind others. A block without a live row isn't read.
fn add_block<R: SealedReader>(
    alloc: Global,
    schema: &Schema,
    segment: &mut Segment<R>,
    dead: &DelVector,
    b: u32,
    keys: &mut Vec<(KeyBytes, Option<Place>)>,
) -> Result<(), ReadFault>
    requires footer { KnowsFooter schema.now (R.view segment.old.reader) segment.old.footer }
    requires there { b < length segment.old.footer.blocks }
    ensures added { OnOk result (OfFile (R.view segment.old.reader) (λ file. (rows : List (List Value)) → IsSegmentOf schema.now segment.old.footer file rows
        → keys.new.items ≡ keys.old.items ++ live_codes schema.now segment.old.number dead.now (b * 1024) (take 1024 (drop (b * 1024) rows)))) }
    ensures whole { OnOk result (OfFile (R.view segment.old.reader) (λ file. HasLive dead.now segment.old.footer.rows b
        → IsWhole schema.now segment.old.footer file b)) }
    ensures damaged { IfErr result (λ e. OnDamage e (IsKeyDamage schema.now segment.old.footer segment.old.number dead.now (R.view segment.old.reader) b)) }
    ensures intact { IfErr result (λ e. OnDamage e (λ damaged. OfFile (R.view segment.old.reader) (IsNoShortSegment schema.now segment.old.footer dead.now))) }
    ensures same { SameFile (R.view segment.old.reader) (R.view segment.new.reader) }
    ensures reads { (R.view segment.new.reader).reads ≤ (R.view segment.old.reader).reads + 1 }
    ensures cause { HasReadCause (R.view segment.old.reader).faults (R.view segment.new.reader).faults result }
    ensures number { segment.new.number ≡ segment.old.number }
    ensures kept { segment.new.footer ≡ segment.old.footer }
    ensures known { KnowsFooter schema.now (R.view segment.new.reader) segment.new.footer }
{
    let count = segment.footer.fields().rows;
    let first = b * BLOCK;
    if !has_live(dead, first, count.min(first + BLOCK)) {
        return Ok(());
    }
    let file = segment.number;
    match block(alloc, schema, segment, b) {
        Ok(rows) => match add_rows(alloc, schema, file, first, dead, rows, keys) {
            Ok(()) => Ok(()),
            Err(KeyRefused::TooLong) => Err(ReadFault::Damaged(Damaged {
                file,
                part: Part::Block(b),
                shown: Shown::Form,
            })),
            Err(KeyRefused::Memory) => Err(ReadFault::Memory),
        },
        Err(fault) => Err(fault),
    }
}

/// The codes of the keys of a file's live rows with the places of these rows, in the file's order, by at most one read
/// for each block.
///
/// # Errors
/// `Damaged` tells a block with a live row: what `block` tells of it, and `Form` where the key of a live row has a code
/// above 128 bytes. `StoreFault` where the reader counted a fault; `Memory`.
pub fn live_keys<R: SealedReader>(
    alloc: Global,
    schema: &Schema,
    segment: &mut Segment<R>,
    dead: &DelVector,
) -> Result<Vec<(KeyBytes, Option<Place>)>, ReadFault>
    requires { KnowsFooter schema.now (R.view segment.old.reader) segment.old.footer }
    ensures keys { IfOk result (λ keys. OfFile (R.view segment.old.reader) (λ file. (rows : List (List Value)) → IsSegmentOf schema.now segment.old.footer file rows
        → keys.items ≡ live_codes schema.now segment.old.number dead.now 0 rows)) }

    // No damage is passed over: each block with a live row was read as the rows that its bytes stand for.
    ensures whole { OnOk result (OfFile (R.view segment.old.reader) (λ file. (b : ℕ) → HasLive dead.now segment.old.footer.rows b
        → IsWhole schema.now segment.old.footer file b)) }
    ensures damaged { IfErr result (λ e. OnDamage e (IsKeysDamage schema.now segment.old.footer segment.old.number dead.now (R.view segment.old.reader))) }

    // No damage is told of the file of a segment whose live rows have keys with short codes.
    ensures intact { IfErr result (λ e. OnDamage e (λ damaged. OfFile (R.view segment.old.reader) (IsNoShortSegment schema.now segment.old.footer dead.now))) }
    ensures same { SameFile (R.view segment.old.reader) (R.view segment.new.reader) }
    ensures reads { (R.view segment.new.reader).reads ≤ (R.view segment.old.reader).reads + length segment.old.footer.blocks }
    ensures cause { HasReadCause (R.view segment.old.reader).faults (R.view segment.new.reader).faults result }
    ensures number { segment.new.number ≡ segment.old.number }
    ensures kept { segment.new.footer ≡ segment.old.footer }
    ensures known { KnowsFooter schema.now (R.view segment.new.reader) segment.new.footer }
{
    let mut keys = Vec::new(alloc);
    for b in 0..segment.footer.blocks() {
        add_block(alloc, schema, segment, dead, b, &mut keys)?;
    }
    Ok(keys)
}
