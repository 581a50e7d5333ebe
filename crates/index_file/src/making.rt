ghost use Rattle.std.specs.Prelude.{◌≡◌, ◌+◌, ◌<◌, ◌^◌, ◌++◌, ℕ, List, Some, T, IfOk, IfSome, OnOk, IsTrue, IsFalse, is_some, length};
ghost use Rattle.std.specs.List.{AllByRecursion, flat_map};
ghost use Rattle.std.specs.FinMap.{from_sorted, is_sorted};
ghost use Rattle.std.specs.Cmp.Lexicographic.{slice_cmp};
ghost use Rattle.std.specs.Ordering.{nat_cmp};
ghost use Rattle.dev_traits.specs.Causes.{HasMakeCause};
ghost use Rattle.index_file.specs.Buckets.{bucket_body, bucket_file, buckets_for, buckets_of, footer_body, footer_of, in_bucket, index_file, mark_bytes, marks_from, PairFits, tail_of};
ghost use Rattle.index_file.specs.Chains.{Chained};
ghost use Rattle.index_file.specs.Entries.{IsFileOf};
ghost use Rattle.index_file.specs.Making.{Adds, MakeStep};

use crate::chains::{Chains, bucket_bytes, chain_up, push_digest};
use crate::footers::{BucketMark, IndexFooter};
use crate::writing::push_u64;
use dev_traits::{FileMaker, MakeFault};
use index_level0::{KeyBytes, Place};
use pk_values::Items;
use std::alloc::{AllocError, Global};

/// An index file that was made.
#[derive(Drop)]
pub struct MadeIndex<X> {
    /// The whole file, which a store adopts.
    pub sealed: X,
    /// The footer that stands in the file.
    pub footer: IndexFooter,
}

/// How many buckets so many entries have: one for each 32, and one at least.
pub(crate) fn buckets_for(entries: u64) -> u64
    ensures { result ≡ buckets_for entries }
{
    entries.div_ceil(32).max(1)
}

// Adds a bucket to the file, and answers its mark.
fn put_bucket<M: FileMaker>(
    alloc: Global,
    maker: &mut M,
    entries: &[(KeyBytes, Option<Place>)],
    chains: &Chains,
    buckets: usize,
    b: usize,
    place: u64,
) -> Result<BucketMark, MakeFault>
    requires started { IsTrue (M.view maker.old).is_started }
    requires chained { Chained entries.now buckets 0 chains.now.first.items chains.now.counts.items chains.now.next.items }
    requires there { b < buckets }
    ensures added { OnOk result (Adds (bucket_file (in_bucket buckets entries.now b)) (M.view maker.old) (M.view maker.new)) }
    ensures mark { IfOk result (λ mark. mark ≡ record { place = place; length = length (bucket_body (in_bucket buckets entries.now b)) }) }
    ensures step { MakeStep (M.view maker.old) (M.view maker.new) result }
{
    let bytes = bucket_bytes(alloc, entries, chains, buckets, b)?;
    maker.add(&bytes)?;
    let length = bytes.len() as u64 - 32;
    Ok(BucketMark { place, length })
}

// The place behind a bucket. None would be a file of 2^64 bytes, which no memory has the entries of.
fn behind(mark: &BucketMark) -> Option<u64>
    ensures { IfSome result (λ next. next ≡ mark.now.place + mark.now.length + 32) }
{
    mark.place.checked_add(mark.length)?.checked_add(32)
}

// Adds the buckets of entries to the file, and answers their marks.
fn put_buckets<M: FileMaker>(
    alloc: Global,
    maker: &mut M,
    entries: &[(KeyBytes, Option<Place>)],
) -> Result<Items<BucketMark>, MakeFault>
    requires started { IsTrue (M.view maker.old).is_started }
    requires rise { T (is_sorted (slice_cmp nat_cmp) entries.now) }
    ensures added { OnOk result (Adds (flat_map bucket_file (buckets_of (from_sorted entries.now))) (M.view maker.old) (M.view maker.new)) }
    ensures marks { IfOk result (λ marks. marks ≡ marks_from 0 (buckets_of (from_sorted entries.now))) }
    ensures fit { IfOk result (λ _. AllByRecursion PairFits entries.now) }
    ensures few { IfOk result (λ _. length entries.now < 2 ^ 64) }
    ensures step { MakeStep (M.view maker.old) (M.view maker.new) result }
{
    let buckets = buckets_for(entries.len() as u64) as usize;
    let chains = chain_up(alloc, entries, buckets)?;
    let mut marks = Items::with_capacity(alloc, buckets)?;
    let mut place = 0;
    for b in 0..buckets {
        let mark = put_bucket(alloc, maker, entries, &chains, buckets, b, place)?;
        marks.push(mark)?;
        match behind(&mark) {
            Some(next) => place = next,
            None => return Err(MakeFault::Memory),
        }
    }
    Ok(marks)
}

// Appends a footer without its digest.
fn push_footer(out: &mut Vec<u8>, footer: &IndexFooter) -> Result<(), AllocError>
    ensures { OnOk result (out.new.items ≡ out.old.items ++ footer_body footer.now) }
{
    out.extend_from_slice(b"PKIX\x01")?;
    push_u64(out, footer.entries)?;
    push_u64(out, footer.buckets.len() as u64)?;
    push_marks(out, footer.buckets.as_slice())
}

fn push_marks(out: &mut Vec<u8>, marks: &[BucketMark]) -> Result<(), AllocError>
    ensures { OnOk result (out.new.items ≡ out.old.items ++ flat_map mark_bytes marks.now) }
{
    for mark in marks {
        push_u64(out, mark.place)?;
        push_u64(out, mark.length)?;
    }
    Ok(())
}

// A footer with its digest and its length.
fn tail(alloc: Global, footer: &IndexFooter) -> Result<Vec<u8>, AllocError>
    ensures { IfOk result (λ tail. tail.items ≡ tail_of footer.now) }
{
    let mut tail = Vec::new(alloc);
    push_footer(&mut tail, footer)?;
    push_digest(&mut tail)?;
    let length = tail.len() as u64;
    push_u64(&mut tail, length)?;
    Ok(tail)
}

/// Makes the index file of entries whose keys rise: buckets by the hash of the keys, each with its SHA-256 digest, and the footer
/// with its length. A file that the maker had begun is dropped.
///
/// # Errors
/// `StoreFault` exactly where the maker failed, which it counted once. `Memory` where this call or the maker wants memory; nothing
/// is counted then. After an error the maker may hold a part of the file, which its next `start` drops.
pub fn write_index<M: FileMaker>(
    alloc: Global,
    maker: &mut M,
    entries: &[(KeyBytes, Option<Place>)],
) -> Result<MadeIndex<M::Sealed>, MakeFault>
    requires { T (is_sorted (slice_cmp nat_cmp) entries.now) }
    ensures footer { IfOk result (λ made. made.footer ≡ footer_of (from_sorted entries.now)) }
    ensures sealed { IfOk result (λ made. (bytes : List ℕ) → M.sealed_bytes made.sealed ≡ Some bytes → bytes ≡ index_file (from_sorted entries.now)) }

    // Attached with the base 0, the file has exactly these entries.
    ensures file { IfOk result (λ made. (bytes : List ℕ) → M.sealed_bytes made.sealed ≡ Some bytes → IsFileOf 0 made.footer bytes (from_sorted entries.now)) }

    // Where the maker tells its bytes, so does the file.
    ensures told { IfOk result (λ made. is_some (M.sealed_bytes made.sealed) ≡ is_some (M.view maker.old).made) }

    // The maker has no file under way.
    ensures closed { OnOk result (IsFalse (M.view maker.new).is_started) }
    ensures tells { is_some (M.view maker.new).made ≡ is_some (M.view maker.old).made }
    ensures cause { HasMakeCause (M.view maker.old).faults (M.view maker.new).faults result }
{
    maker.start()?;
    let buckets = put_buckets(alloc, maker, entries)?;
    let footer = IndexFooter {
        entries: entries.len() as u64,
        buckets,
    };
    let tail = tail(alloc, &footer)?;
    maker.add(&tail)?;
    let sealed = maker.seal()?;
    Ok(MadeIndex { sealed, footer })
}
