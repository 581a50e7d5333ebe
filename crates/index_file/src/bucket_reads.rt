ghost use Rattle.std.specs.Prelude.{◌≡◌, ◌≢◌, ◌↔◌, ◌+◌, ◌<◌, ◌≤◌, ◌^◌, IfErr, IfOk, IsTrue, T, length};
ghost use Rattle.std.specs.List.{list_all};
ghost use Rattle.std.specs.FinMap.{is_sorted};
ghost use Rattle.std.specs.Cmp.Lexicographic.{slice_cmp};
ghost use Rattle.std.specs.Ordering.{nat_cmp};
ghost use Rattle.dev_traits.specs.declared.faults.Part.TheVariants as part;
ghost use Rattle.index_file.specs.Entries.{belongs, sum_fits, BucketShown, IsTheBucket};
ghost use Rattle.index_file.specs.Reads.{bucket_in, IsDamage, KnowsFooter, OfBucket, OnDamage, OnFile, OnShown, Reading};

use crate::chains::bucket_of;
use crate::digests::digests_shown;
use crate::faults::{PartFault, fault_of};
use crate::footers::{BucketMark, IndexFooter};
use crate::log_bodies::keys_rise;
use crate::pieces::read_piece;
use crate::reading::read_bucket;
use dev_traits::{Part, ReadFault, SealedReader, Shown};
use index_level0::{KeyBytes, Place};
use std::alloc::Global;

// Whether the key has a bucket, and the place with the base fits.
fn belongs(entry: &(KeyBytes, Option<Place>), buckets: u64, b: u64, base: u64) -> bool
    requires { 0 < buckets }
    ensures { result ≡ belongs buckets b base entry.now }
{
    bucket_of(entry.0.as_slice(), buckets) == b && sum_fits(entry.1, base)
}

/// Whether a place's number of its segment and a base have a sum.
pub(crate) fn sum_fits(entry: Option<Place>, base: u64) -> bool
    ensures { result ≡ sum_fits base entry }
{
    match entry {
        Some(place) => base.checked_add(place.segment).is_some(),
        None => true,
    }
}

fn all_belong(entries: &[(KeyBytes, Option<Place>)], buckets: u64, b: u64, base: u64) -> bool
    requires { 0 < buckets }
    ensures { result ≡ list_all (belongs buckets b base) entries.now }
{
    for entry in entries {
        if !belongs(entry, buckets, b, base) {
            return false;
        }
    }
    true
}

// The entries whose bucket these bytes are, of which `len` stand before the digest.
fn entries_of(
    alloc: Global,
    buckets: u64,
    b: u64,
    base: u64,
    len: usize,
    bytes: &[u8],
) -> Result<Vec<(KeyBytes, Option<Place>)>, PartFault>
    requires some { 0 < buckets }
    requires long { length bytes.now ≡ len + 32 }
    ensures entries { IfOk result (λ es. IsTheBucket buckets b base bytes.now es.items) }
    ensures shown { IfErr result (λ e. OnShown e (BucketShown buckets b base len bytes.now)) }
{
    if let Some(shown) = digests_shown(bytes, len) {
        return Err(PartFault::Damaged(shown));
    }
    match read_bucket(alloc, &bytes[..len]) {
        Ok(Some(entries)) => {
            if keys_rise(&entries) && all_belong(&entries, buckets, b, base) {
                Ok(entries)
            } else {
                Err(PartFault::Damaged(Shown::Form))
            }
        }
        Ok(None) => Err(PartFault::Damaged(Shown::Form)),
        Err(_) => Err(PartFault::Memory),
    }
}

// Whether the bucket and its digest end within so many bytes.
fn is_inside(mark: &BucketMark, size: u64) -> bool
    requires { size ≤ 2 ^ 44 }
    ensures { IsTrue result ↔ (mark.now.place + mark.now.length + 32 ≤ size) }
{
    mark.length <= size && mark.length + 32 <= size && mark.place <= size - (mark.length + 32)
}

/// The bytes of bucket `b`, counted from 0, with its digest, by one read.
pub(crate) fn read_bytes_of<R: SealedReader>(
    alloc: Global,
    reader: &mut R,
    footer: &IndexFooter,
    number: u64,
    b: usize,
) -> Result<Vec<u8>, ReadFault>
    requires known { ∥ KnowsFooter (R.view reader.old) footer.now ∥₁ }
    requires there { b < length footer.now.buckets }
    ensures bytes { IfOk result (λ bytes. OnFile (R.view reader.old) (λ file. OfBucket footer.now b (λ mark. bytes.items ≡ bucket_in file mark))) }
    ensures long { IfOk result (λ bytes. OfBucket footer.now b (λ mark. length bytes.items ≡ mark.length + 32)) }

    // A file that tells its bytes has each bucket inside.
    ensures damaged { IfErr result (λ e. OnDamage e (IsDamage number (part.Bucket b) (λ shown. OnFile (R.view reader.old) (λ file. ⊥)))) }
    ensures reading { Reading 1 (R.view reader.old) (R.view reader.new) result }
{
    let mark = footer.mark(b);
    if !is_inside(&mark, reader.length()) {
        return Err(fault_of(
            number,
            Part::Bucket(b as u64),
            PartFault::Damaged(Shown::Form),
        ));
    }
    let bytes = read_piece(alloc, reader, mark.place, mark.length as usize + 32)?;
    Ok(bytes)
}

/// The entries whose bytes bucket `b` of a file has, with its digest.
pub(crate) fn told_entries(
    alloc: Global,
    footer: &IndexFooter,
    number: u64,
    base: u64,
    b: usize,
    bytes: &[u8],
) -> Result<Vec<(KeyBytes, Option<Place>)>, ReadFault>
    requires there { b < length footer.now.buckets }
    requires long { OfBucket footer.now b (λ mark. length bytes.now ≡ mark.length + 32) }
    ensures entries { IfOk result (λ es. IsTheBucket (length footer.now.buckets) b base bytes.now es.items) }
    ensures damaged { IfErr result (λ e. OnDamage e (IsDamage number (part.Bucket b) (λ shown. OfBucket footer.now b (λ mark.
        BucketShown (length footer.now.buckets) b base mark.length bytes.now shown)))) }
    ensures unfailed { IfErr result (λ e. e ≢ ReadFault.StoreFault) }
{
    let len = footer.mark(b).length as usize;
    match entries_of(
        alloc,
        footer.buckets.len() as u64,
        b as u64,
        base,
        len,
        bytes,
    ) {
        Ok(entries) => Ok(entries),
        Err(fault) => Err(fault_of(number, Part::Bucket(b as u64), fault)),
    }
}

/// The entries of bucket `b`, counted from 0, as they are stored, by one read.
pub(crate) fn read_entries_of<R: SealedReader>(
    alloc: Global,
    reader: &mut R,
    footer: &IndexFooter,
    number: u64,
    base: u64,
    b: usize,
) -> Result<Vec<(KeyBytes, Option<Place>)>, ReadFault>
    requires known { ∥ KnowsFooter (R.view reader.old) footer.now ∥₁ }
    requires there { b < length footer.now.buckets }
    ensures entries { IfOk result (λ es. OnFile (R.view reader.old) (λ file. OfBucket footer.now b (λ mark. IsTheBucket (length footer.now.buckets) b base (bucket_in file mark) es.items))) }
    ensures rise { IfOk result (λ es. T (is_sorted (slice_cmp nat_cmp) es.items)) }
    ensures belong { IfOk result (λ es. IsTrue (list_all (belongs (length footer.now.buckets) b base) es.items)) }
    ensures damaged { IfErr result (λ e. OnDamage e (IsDamage number (part.Bucket b) (λ shown. OnFile (R.view reader.old) (λ file. OfBucket footer.now b (λ mark.
        BucketShown (length footer.now.buckets) b base mark.length (bucket_in file mark) shown))))) }
    ensures reading { Reading 1 (R.view reader.old) (R.view reader.new) result }
{
    let bytes = match read_bytes_of(alloc, reader, footer, number, b) {
        Ok(bytes) => bytes,
        Err(fault) => return Err(fault),
    };
    let entries = match told_entries(alloc, footer, number, base, b, &bytes) {
        Ok(entries) => entries,
        Err(fault) => return Err(fault),
    };
    Ok(entries)
}
