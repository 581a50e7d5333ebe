ghost use Rattle.std.specs.Prelude.{◌≡◌, ◌++◌, ◌∷◌, [], IfErr, IfOk, IsSome, OnOk, OnErr};
ghost use Rattle.dev_traits.specs.Causes.{Counts, HasReadCause};
ghost use Rattle.dev_traits.specs.Image.{file};
ghost use Rattle.dev_traits.specs.Reader.{IsNew};
ghost use Rattle.dev_traits.specs.View.{Calm, Told};
ghost use Rattle.segment_read.specs.Reads.{OnDamage};
ghost use Rattle.segment_read.specs.declared.segments.Segment.{Segment};
ghost use Rattle.rowsets.specs.Live.{Files};
ghost use Rattle.store_files.specs.Named.{faults_in, AreAttached, AreStored, IsAttached, IsDamageOfOne, IsFileDamage, IsNotStored};

use dev_traits::{Damaged, DevError, Part, ReadFault, Shown, Store};
use pk_values::Schema;
use segment_read::{Segment, attach};
use std::alloc::Global;

/// A file that a journal tells of.
#[derive(Clone, Copy, Debug, Drop, PartialEq, Eq)]
pub struct NamedFile {
    /// Its number.
    pub number: u64,
    /// How many rows it is told to have.
    pub rows: u32,
}

// The footer of a file is damaged.
fn footer_damage(number: u64, shown: Shown) -> ReadFault
    ensures { result ≡ ReadFault.Damaged (record { file = number; part = Part.Footer; shown = shown }) }
{
    ReadFault::Damaged(Damaged {
        file: number,
        part: Part::Footer,
        shown,
    })
}

// The segment of a reader of the store's, which goes back to the store where it isn't one of so many rows.
fn attach_reader<S: Store>(
    alloc: Global,
    store: &mut S,
    schema: &Schema,
    named: NamedFile,
    reader: S::Reader,
) -> Result<Segment<S::Reader>, ReadFault>
    requires new { IsNew (S.Reader.view reader) }
    requires bytes { Told (S.view store.old) (λ image. (S.Reader.view reader).bytes ≡ file image named.number) }
    requires there { Told (S.view store.old) (λ image. IsSome (file image named.number)) }
    ensures attached { IfOk result (λ segment. IsAttached S.Reader.view schema.now (S.view store.old) named segment) }
    ensures damaged { IfErr result (λ e. OnDamage e (IsFileDamage schema.now (S.view store.old) named)) }
    ensures intact { IfErr result (λ e. OnDamage e (λ damaged. IsNotStored schema.now (S.view store.old) named)) }
    ensures calm { Calm (S.view store.old) (S.view store.new) }
    ensures cause { HasReadCause (S.view store.old).faults (S.view store.new).faults result }
{
    match attach(alloc, schema, named.number, reader) {
        Ok(segment) => {
            if segment.footer.rows() == named.rows {
                return Ok(segment);
            }
            store.give_back_reader(segment.reader);
            Err(footer_damage(named.number, Shown::Form))
        }
        Err((reader, fault)) => {
            store.give_back_reader(reader);
            Err(fault)
        }
    }
}

/// The segment of a file of the store, of which this reads the footer.
///
/// # Errors
/// `Damaged` tells the footer: `Absent` where there is no such file, what `attach` tells of it, and
/// `Form` where the file has another number of rows. `StoreFault` where the store's count rose by one; `Memory`. Each
/// reader but that of the answer went back to the store.
pub fn attach_file<S: Store>(
    alloc: Global,
    store: &mut S,
    schema: &Schema,
    file: NamedFile,
) -> Result<Segment<S::Reader>, ReadFault>
    ensures attached { IfOk result (λ segment. IsAttached S.Reader.view schema.now (S.view store.old) file segment) }
    ensures damaged { IfErr result (λ e. OnDamage e (IsFileDamage schema.now (S.view store.old) file)) }

    // No damage is told of the file of so many rows.
    ensures intact { IfErr result (λ e. OnDamage e (λ damaged. IsNotStored schema.now (S.view store.old) file)) }
    ensures calm { Calm (S.view store.old) (S.view store.new) }
    ensures cause { HasReadCause (S.view store.old).faults (S.view store.new).faults result }
{
    match store.reader(file.number) {
        Ok(reader) => attach_reader(alloc, store, schema, file, reader),
        Err(DevError::Absent) => Err(footer_damage(file.number, Shown::Absent)),
        Err(DevError::Failed) => Err(ReadFault::StoreFault),
        Err(DevError::Memory) => Err(ReadFault::Memory),
    }
}

// Attaches one file more.
fn attach_next<S: Store>(
    alloc: Global,
    store: &mut S,
    schema: &Schema,
    file: NamedFile,
    segments: &mut Vec<Segment<S::Reader>>,
) -> Result<(), ReadFault>
    ensures attached { OnOk result ((segment : Segment S.Reader) × (segments.new.items ≡ segments.old.items ++ segment ∷ [])
        × IsAttached S.Reader.view schema.now (S.view store.old) file segment) }
    ensures unchanged { OnErr result (segments.new.items ≡ segments.old.items) }
    ensures damaged { IfErr result (λ e. OnDamage e (IsFileDamage schema.now (S.view store.old) file)) }
    ensures intact { IfErr result (λ e. OnDamage e (λ damaged. IsNotStored schema.now (S.view store.old) file)) }
    ensures calm { Calm (S.view store.old) (S.view store.new) }
    ensures cause { HasReadCause (S.view store.old).faults (S.view store.new).faults result }
{
    match attach_file(alloc, store, schema, file) {
        Ok(segment) => match segments.push(segment) {
            Ok(()) => Ok(()),
            Err(refused) => {
                store.give_back_reader(refused.value.reader);
                Err(ReadFault::Memory)
            }
        },
        Err(fault) => Err(fault),
    }
}

/// Hands the readers of segments to the store, which counts their faults.
pub fn give_back_all<S: Store>(store: &mut S, segments: Vec<Segment<S::Reader>>)
    ensures calm { Calm (S.view store.old) (S.view store.new) }
    ensures counts { Counts (faults_in S.Reader.view segments.items) (S.view store.old).faults (S.view store.new).faults }
{
    let mut left = segments.into_iter();
    while let Some(segment) = left.next() {
        store.give_back_reader(segment.reader);
    }
}

/// The segments of files of the store, one each in their order.
///
/// # Errors
/// Those of attaching the one of the files that isn't attached. All readers went back to the store.
pub fn attach_all<S: Store>(
    alloc: Global,
    store: &mut S,
    schema: &Schema,
    files: &[NamedFile],
) -> Result<Vec<Segment<S::Reader>>, ReadFault>
    ensures attached { IfOk result (λ segments. AreAttached S.Reader.view schema.now (S.view store.old) files.now segments.items) }
    ensures damaged { IfErr result (λ e. OnDamage e (IsDamageOfOne schema.now (S.view store.old) files.now)) }

    // No damage is told of files of so many rows.
    ensures intact { IfErr result (λ e. OnDamage e (λ damaged. Told (S.view store.old) (λ image. (stored : Files) → AreStored schema.now stored files.now image → ⊥))) }
    ensures calm { Calm (S.view store.old) (S.view store.new) }
    ensures cause { HasReadCause (S.view store.old).faults (S.view store.new).faults result }
{
    let mut segments = Vec::new(alloc);
    for file in files {
        match attach_next(alloc, store, schema, *file, &mut segments) {
            Ok(()) => {}
            Err(fault) => {
                give_back_all(store, segments);
                return Err(fault);
            }
        }
    }
    Ok(segments)
}
