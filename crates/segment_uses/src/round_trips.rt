ghost use Rattle.std.specs.Prelude.{◌≡◌, ◌≢◌, ◌⊎◌, OnErr, ℕ, List, Some, None, IfOk, OnOk, IsErrOf};
ghost use Rattle.dev_traits.specs.Causes.{HasMakeCause, HasOutsideCause, HasReadCause};
ghost use Rattle.dev_traits.specs.Image.{file, with_file, Same};
ghost use Rattle.dev_traits.specs.View.{Calm, EachImage, Leaves, Spends, Told};
ghost use Rattle.dev_traits.specs.Reader.{IsNew};
ghost use Rattle.dev_traits.specs.declared.faults.Damaged.{Damaged};
ghost use Rattle.dev_traits.specs.declared.faults.OutsideFault.TheVariants as outside;
ghost use Rattle.dev_traits.specs.declared.faults.Part.TheVariants as part;
ghost use Rattle.dev_traits.specs.declared.faults.ReadFault.TheVariants as read;
ghost use Rattle.segment_form.specs.Segments.{AreSegmentRows, segment_file};
ghost use Rattle.segment_read.specs.Reads.{OfFile};

use dev_traits::{FileMaker, MakeFault, OutsideFault, ReadFault, SealedReader, Store};
use pk_values::{Row, Schema};
use segment_read::{attach, rows_of};
use segment_write::write_segment;
use std::alloc::Global;

// The sealed file of these rows.
fn sealed_rows<S: Store>(
    alloc: Global,
    store: &mut S,
    schema: &Schema,
    rows: &[Row],
) -> Result<<S::Maker as FileMaker>::Sealed, MakeFault>
    requires { AreSegmentRows schema.now rows.now }
    ensures sealed { IfOk result (λ sealed. (bytes : List ℕ) → S.Maker.sealed_bytes sealed ≡ Some bytes → bytes ≡ segment_file schema.now rows.now) }
    ensures calm { Calm (S.view store.old) (S.view store.new) }
    ensures cause { HasMakeCause (S.view store.old).faults (S.view store.new).faults result }
{
    let mut maker = store.maker()?;
    let made = write_segment(alloc, &mut maker, schema, rows);
    store.give_back(maker);
    Ok(made?.sealed)
}

// The file of these rows, taken in by the store.
fn adopted_rows<S: Store>(
    alloc: Global,
    store: &mut S,
    schema: &Schema,
    number: u64,
    rows: &[Row],
) -> Result<S::Reader, MakeFault>
    requires rows { AreSegmentRows schema.now rows.now }
    requires new { Told (S.view store.old) (λ image. file image number ≡ None) }
    ensures bytes { IfOk result (λ reader. Told (S.view store.old) (λ _. (S.Reader.view reader).bytes ≡ Some (segment_file schema.now rows.now))) }
    ensures unread { IfOk result (λ reader. IsNew (S.Reader.view reader)) }
    ensures kept { OnOk result (Told (S.view store.old) (λ image. (S.view store.new).seen ≡ Some (with_file number (segment_file schema.now rows.now) image))) }
    ensures durable { OnOk result (Told (S.view store.old) (λ _. EachImage (S.view store.new) (λ left. file left number ≡ Some (segment_file schema.now rows.now)))) }
    ensures not_kept { OnErr result ((S.view store.new).seen ≡ (S.view store.old).seen) }
    ensures spends { Spends 1 0 (S.view store.old) (S.view store.new) }
    ensures crash { Leaves Same (S.view store.old) (S.view store.new) }
    ensures cause { HasMakeCause (S.view store.old).faults (S.view store.new).faults result }
{
    let sealed = sealed_rows(alloc, store, schema, rows)?;
    store.room(1, 0)?;
    match store.adopt(number, sealed) {
        Ok(reader) => Ok(reader),
        Err(_) => Err(MakeFault::StoreFault),
    }
}

// The rows of the file of a reader, which may be the file of these rows.
fn read_rows<R: SealedReader>(
    alloc: Global,
    schema: &Schema,
    number: u64,
    reader: R,
    _rows: &[Row],
) -> (R, Result<Vec<Row>, ReadFault>)
    requires { AreSegmentRows schema.now _rows.now }
    ensures same { IfOk result.1 (λ found. OfFile (R.view reader) (λ file. file ≡ segment_file schema.now _rows.now → found.items ≡ _rows.now)) }
    ensures damage { (damaged : Damaged) → IsErrOf result.1 (read.Damaged damaged) → OfFile (R.view reader) (λ file. file ≢ segment_file schema.now _rows.now) }
    ensures place { (damaged : Damaged) → IsErrOf result.1 (read.Damaged damaged) → (damaged.file ≡ number) × ((damaged.part ≡ part.Footer) ⊎ ((b : ℕ) × (damaged.part ≡ part.Block b))) }
    ensures cause { HasReadCause (R.view reader).faults (R.view result.0).faults result.1 }
{
    match attach(alloc, schema, number, reader) {
        Ok(mut segment) => {
            let found = rows_of(alloc, schema, &mut segment);
            (segment.reader, found)
        }
        Err((reader, fault)) => (reader, Err(fault)),
    }
}

/// Writes 1 to 65,536 rows with rising keys as a file of the store, under a number that no file of
/// the store has, and reads them back.
///
/// A store keeps memory for as many writes as before, but one. What a crash may leave was one of the
/// images before, and the file is in each.
///
/// # Errors
/// `Fault` exactly where the store, its maker or its reader failed, which the store counted once.
/// `Damaged`, of the footer or of a block of this file, only where the store doesn't tell its bytes.
/// `Memory`. After an error the store has the file or doesn't, and all else is as it was.
pub fn write_and_read<S: Store>(
    alloc: Global,
    store: &mut S,
    schema: &Schema,
    number: u64,
    rows: &[Row],
) -> Result<Vec<Row>, OutsideFault>
    requires rows { AreSegmentRows schema.now rows.now }
    requires new { Told (S.view store.old) (λ image. file image number ≡ None) }
    ensures same { IfOk result (λ found. Told (S.view store.old) (λ _. found.items ≡ rows.now)) }
    ensures kept { OnOk result (Told (S.view store.old) (λ image. (S.view store.new).seen ≡ Some (with_file number (segment_file schema.now rows.now) image))) }

    // A crash from then on leaves the file.
    ensures durable { OnOk result (Told (S.view store.old) (λ _. EachImage (S.view store.new) (λ left. file left number ≡ Some (segment_file schema.now rows.now)))) }

    // After an error the store has the file or doesn't, and all else is as it was.
    ensures left { OnErr result (Told (S.view store.old) (λ image. ((S.view store.new).seen ≡ Some image) ⊎ ((S.view store.new).seen ≡ Some (with_file number (segment_file schema.now rows.now) image)))) }
    ensures damage { (damaged : Damaged) → IsErrOf result (outside.Damaged damaged) → (S.view store.old).seen ≡ None }

    // It is told of this file, at its footer or at one of its blocks.
    ensures place { (damaged : Damaged) → IsErrOf result (outside.Damaged damaged) → (damaged.file ≡ number) × ((damaged.part ≡ part.Footer) ⊎ ((b : ℕ) × (damaged.part ≡ part.Block b))) }
    ensures spends { Spends 1 0 (S.view store.old) (S.view store.new) }
    ensures crash { Leaves Same (S.view store.old) (S.view store.new) }
    ensures cause { HasOutsideCause (S.view store.old).faults (S.view store.new).faults result }
{
    let reader = adopted_rows(alloc, store, schema, number, rows)?;
    let (reader, found) = read_rows(alloc, schema, number, reader, rows);
    store.give_back_reader(reader);
    Ok(found?)
}
