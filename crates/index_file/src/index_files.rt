ghost use Rattle.std.specs.Prelude.{◌≡◌, ◌<◌, ◌≤◌, IfErr, IfOk, IsTrue, length};
ghost use Rattle.std.specs.Option.{option_map};
ghost use Rattle.std.specs.FinMap.{find, get};
ghost use Rattle.std.specs.Cmp.Lexicographic.{slice_cmp};
ghost use Rattle.std.specs.Ordering.{nat_cmp};
ghost use Rattle.dev_traits.specs.declared.faults.Part.TheVariants as part;
ghost use Rattle.index_level0.specs.Levels.{Level};
ghost use Rattle.index_file.specs.declared.footers.IndexFooter.{IndexFooter};
ghost use Rattle.index_file.specs.Buckets.{bucket_of, buckets_for};
ghost use Rattle.index_file.specs.Damages.{IsDamageAt};
ghost use Rattle.index_file.specs.Entries.{BucketShown, HasLevel, IsFileOf, sum_fits, sums_fit, with_base};
ghost use Rattle.index_file.specs.Footers.{FooterShown, HasFooter};
ghost use Rattle.index_file.specs.Listing.{HasEntry};
ghost use Rattle.index_file.specs.Wholes.{AreWhole};
ghost use Rattle.index_file.specs.Reads.{bucket_in, HasFailed, HasRead, IsDamage, KnowsFooter, OfBucket, OnDamage, OnFile, Reading, TellsDamage};

use crate::bucket_reads::read_entries_of;
use crate::chains::bucket_of;
use crate::footer_reads::read_tail;
use crate::footers::IndexFooter;
use crate::look_ups::{find_place, look_up};
use crate::notes::Notes;
use dev_traits::{ReadFault, SealedReader};
use index_level0::Place;
use std::alloc::Global;

/// An index file that is read. Its footer is that of the reader's file.
#[derive(Drop)]
pub struct IndexFile<R: SealedReader> {
    pub(crate) number: u64,
    pub(crate) base: u64,
    pub(crate) reader: R,
    pub(crate) footer: IndexFooter,
    // The buckets that were found whole.
    notes: Notes,
    ghost known: { ∥ KnowsFooter (R.view reader) footer ∥₁ },
    ghost numbered: { length footer.buckets ≡ buckets_for footer.entries },
    ghost whole: { ∥ AreWhole base footer (R.view reader) notes ∥₁ },
}

impl<R: SealedReader> IndexFile<R> {
    /// The index file with this number, base and footer. It reads nothing and takes no memory.
    pub fn of(number: u64, base: u64, reader: R, footer: IndexFooter) -> IndexFile<R>
        requires known { KnowsFooter (R.view reader) footer }
        requires numbered { length footer.buckets ≡ buckets_for footer.entries }
        ensures number { result.number ≡ number }
        ensures base { result.base ≡ base }
        ensures reader { result.reader ≡ reader }
        ensures footer { result.footer ≡ footer }
    {
        IndexFile {
            number,
            base,
            reader,
            footer,
            notes: Notes::none(),
        }
    }

    /// The number of its file, which damage is told with.
    pub fn number(&self) -> u64
        ensures { result ≡ self.now.number }
    {
        self.number
    }

    /// What is added to the number of each place's segment.
    pub fn base(&self) -> u64
        ensures { result ≡ self.now.base }
    {
        self.base
    }

    /// How often the reader has failed.
    pub fn faults(&self) -> u64
        ensures { result ≡ (R.view self.now.reader).faults }
    {
        self.reader.faults()
    }

    /// The reader. It takes no memory.
    pub fn into_reader(self) -> R
        ensures { result ≡ self.reader }
    {
        let IndexFile {
            number: _,
            base: _,
            reader,
            footer: _,
            notes: _,
        } = self;
        reader
    }
}

/// The index file whose footer this reads: the last eight bytes, then the footer whose length they tell.
///
/// # Errors
/// The reader, and why. `Damaged` tells the footer: with its digests exactly where the kept digest isn't that of the bytes before
/// it, and else with `Form` exactly where the file has no footer. `StoreFault` where the reader counted a fault; `Memory`.
pub fn attach_index<R: SealedReader>(
    alloc: Global,
    number: u64,
    base: u64,
    mut reader: R,
) -> Result<IndexFile<R>, (R, ReadFault)>
    ensures number { IfOk result (λ file. file.number ≡ number) }
    ensures base { IfOk result (λ file. file.base ≡ base) }
    ensures footer { IfOk result (λ file. KnowsFooter (R.view file.reader) file.footer) }

    // A file has no other footer.
    ensures only { IfOk result (λ file. OnFile (R.view reader) (λ bytes. (f : IndexFooter) → HasFooter f bytes → file.footer ≡ f)) }

    // A level's file is attached as that of the level, and no damage is told of it.
    ensures level { IfOk result (λ file. OnFile (R.view reader) (λ bytes. (f : IndexFooter) (level : Level) → IsFileOf base f bytes level → HasLevel base file.footer (R.view file.reader) level)) }
    ensures intact { IfErr result (λ e. TellsDamage e.1 → OnFile (R.view reader) (λ bytes. (f : IndexFooter) (level : Level) → IsFileOf base f bytes level → ⊥)) }
    ensures attached { IfOk result (λ file. HasRead 2 (R.view reader) (R.view file.reader)) }
    ensures damaged { IfErr result (λ e. OnDamage e.1 (IsDamage number part.Footer (λ shown. OnFile (R.view reader) (λ bytes. FooterShown bytes shown)))) }
    ensures refused { IfErr result (λ e. HasFailed 2 (R.view reader) (R.view e.0) e.1) }
{
    match read_tail(alloc, &mut reader, number) {
        Ok(footer) => Ok(IndexFile {
            number,
            base,
            reader,
            footer,
            notes: Notes::none(),
        }),
        Err(fault) => Err((reader, fault)),
    }
}

/// What the file has at a key: its place, None for a tombstone, or nothing. It reads the file at most once: the bucket of the key.
/// A bucket that a look-up found whole is not digested again, since the file doesn't change.
///
/// # Errors
/// `Damaged` tells the bucket: with its digests exactly where the kept one isn't that of its bytes, and else with `Form` exactly
/// where no entries have this bucket. `StoreFault` where the reader counted a fault; `Memory`.
pub fn probe<R: SealedReader>(
    alloc: Global,
    file: &mut IndexFile<R>,
    key: &[u8],
) -> Result<Option<Option<Place>>, ReadFault>
    ensures entry { IfOk result (λ entry. HasEntry file.old.base file.old.footer (R.view file.old.reader) key.now entry) }

    // Of the file of a level, the level's entry.
    ensures level { IfOk result (λ entry. (level : Level) → HasLevel file.old.base file.old.footer (R.view file.old.reader) level → entry ≡ get level key.now) }

    // The damage is that of the key's bucket.
    ensures damaged { IfErr result (λ e. OnDamage e (IsDamageAt file.old.base file.old.footer file.old.number (R.view file.old.reader) key.now)) }
    ensures intact { IfErr result (λ e. TellsDamage e → (level : Level) → HasLevel file.old.base file.old.footer (R.view file.old.reader) level → ⊥) }
    ensures reading { Reading 1 (R.view file.old.reader) (R.view file.new.reader) result }
    ensures number { file.new.number ≡ file.old.number }
    ensures base { file.new.base ≡ file.old.base }
    ensures footer { file.new.footer ≡ file.old.footer }
{
    let b = bucket_of(key, file.footer.buckets.len() as u64) as usize;
    let number = file.number;
    let base = file.base;
    if file.notes.has(b) {
        match look_up(alloc, &mut file.reader, &file.footer, number, base, b, key) {
            Ok(entry) => return Ok(entry),
            Err(fault) => return Err(fault),
        }
    }
    match read_entries_of(alloc, &mut file.reader, &file.footer, number, base, b) {
        Ok(entries) => {
            file.notes.add(alloc, b, file.footer.buckets.len());
            Ok(find_place(&entries, key, base))
        }
        Err(fault) => Err(fault),
    }
}
