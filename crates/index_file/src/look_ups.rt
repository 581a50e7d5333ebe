ghost use Rattle.std.specs.Prelude.{◌≡◌, ◌<◌, List, Some, IfErr, IfOk, IsTrue, length};
ghost use Rattle.std.specs.Option.{option_map};
ghost use Rattle.std.specs.FinMap.{find};
ghost use Rattle.std.specs.Cmp.Lexicographic.{slice_cmp};
ghost use Rattle.std.specs.Ordering.{nat_cmp};
ghost use Rattle.dev_traits.specs.declared.faults.Part.TheVariants as part;
ghost use Rattle.index_file.specs.Buckets.{Pair};
ghost use Rattle.index_file.specs.Entries.{BucketShown, sum_fits, sums_fit, with_base};
ghost use Rattle.index_file.specs.Listing.{HasEntryIn};
ghost use Rattle.index_file.specs.Reading.{IsBucket};
ghost use Rattle.index_file.specs.Reads.{bucket_in, IsDamage, KnowsFooter, OfBucket, OnDamage, OnFile, Reading};
ghost use Rattle.index_file.specs.Wholes.{IsWhole};

use crate::bucket_reads::{read_bytes_of, sum_fits, told_entries};
use crate::footers::IndexFooter;
use crate::seeking::seek;
use dev_traits::{ReadFault, SealedReader};
use index_level0::{KeyBytes, Place};
use std::alloc::Global;

/// An entry counted from a base.
pub(crate) fn with_base(entry: Option<Place>, base: u64) -> Option<Place>
    requires { IsTrue (sum_fits base entry) }
    ensures { result ≡ with_base base entry }
{
    match entry {
        Some(place) => Some(Place {
            segment: base + place.segment,
            row: place.row,
        }),
        None => None,
    }
}

// What entries have at a key, as they are stored.
fn find_entry(entries: &[(KeyBytes, Option<Place>)], key: &[u8]) -> Option<Option<Place>>
    ensures { result ≡ find (slice_cmp nat_cmp) key.now entries.now }
{
    for entry in entries {
        if key.cmp(entry.0.as_slice()).is_eq() {
            return Some(entry.1);
        }
    }
    None
}

/// The same, counted from a base.
pub(crate) fn find_place(
    entries: &[(KeyBytes, Option<Place>)],
    key: &[u8],
    base: u64,
) -> Option<Option<Place>>
    requires { IsTrue (sums_fit base entries.now) }
    ensures { result ≡ option_map (with_base base) (find (slice_cmp nat_cmp) key.now entries.now) }
{
    match find_entry(entries, key) {
        Some(entry) => Some(with_base(entry, base)),
        None => None,
    }
}

// The same of the bytes of a bucket without its digest. None where they are no bucket's, as far as the search sees them.
fn seek_place(bytes: &[u8], key: &[u8], base: u64) -> Option<Option<Option<Place>>>
    ensures { (es : List Pair) → IsBucket bytes.now es → IsTrue (sums_fit base es) → result ≡ Some (option_map (with_base base) (find (slice_cmp nat_cmp) key.now es)) }
{
    match seek(bytes, key)? {
        Some(entry) => {
            if sum_fits(entry, base) {
                Some(Some(with_base(entry, base)))
            } else {
                None
            }
        }
        None => Some(None),
    }
}

/// What bucket `b`, counted from 0, has at a key, counted from a base, by one read. The bucket was found whole before, and its
/// file doesn't change: its entries are searched in place, and its digest is not computed again unless they can't be.
pub(crate) fn look_up<R: SealedReader>(
    alloc: Global,
    reader: &mut R,
    footer: &IndexFooter,
    number: u64,
    base: u64,
    b: usize,
    key: &[u8],
) -> Result<Option<Option<Place>>, ReadFault>
    requires known { ∥ KnowsFooter (R.view reader.old) footer.now ∥₁ }
    requires there { b < length footer.now.buckets }
    requires whole { ∥ IsWhole base footer.now (R.view reader.old) b ∥₁ }
    ensures entry { IfOk result (λ entry. HasEntryIn base footer.now (R.view reader.old) b key.now entry) }
    ensures damaged { IfErr result (λ e. OnDamage e (IsDamage number (part.Bucket b) (λ shown. OnFile (R.view reader.old) (λ file. OfBucket footer.now b (λ mark.
        BucketShown (length footer.now.buckets) b base mark.length (bucket_in file mark) shown))))) }
    ensures reading { Reading 1 (R.view reader.old) (R.view reader.new) result }
{
    let bytes = match read_bytes_of(alloc, reader, footer, number, b) {
        Ok(bytes) => bytes,
        Err(fault) => return Err(fault),
    };
    let all: &[u8] = &bytes;
    let end = all.len() - 32;
    if let Some(entry) = seek_place(&all[..end], key, base) {
        return Ok(entry);
    }
    let entries = match told_entries(alloc, footer, number, base, b, all) {
        Ok(entries) => entries,
        Err(fault) => return Err(fault),
    };
    Ok(find_place(&entries, key, base))
}
