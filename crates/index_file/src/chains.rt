ghost use Rattle.std.specs.Prelude.{◌≡◌, ◌<◌, ◌≤◌, ◌++◌, IfOk, OnOk, length};
ghost use Rattle.std.specs.List.{AllByRecursion};
ghost use Rattle.sha2.specs.Sha256.{sha256};
ghost use Rattle.index_file.specs.Buckets.{bucket_file, bucket_of, in_bucket, PairFits};
ghost use Rattle.index_file.specs.Chains.{Chained};

use crate::hashing::hash;
use crate::writing::{push_entry, push_u64};
use index_level0::{KeyBytes, Place};
use sha2::{Digest, Sha256};
use std::alloc::{AllocError, Global};

/// The entries of each bucket as a chain of places, and their number.
#[derive(Drop)]
pub(crate) struct Chains {
    pub first: Vec<usize>,
    pub counts: Vec<u64>,
    pub next: Vec<usize>,
}

// The bucket of a key among so many.
pub(crate) fn bucket_of(key: &[u8], buckets: u64) -> u64
    requires { 0 < buckets }
    ensures of_key { result ≡ bucket_of buckets key.now }
    ensures there { result < buckets }
{
    hash(key) % buckets
}

// A key and a place fit the form of an entry. It does nothing.
fn fits(key: &[u8], place: Option<Place>)
    requires { length key.now ≤ 128 }
    ensures { PairFits (key.now, place) }
{
    let Some(Place { segment, row }) = place else {
        return;
    };
    let _numbers = (segment, row);
}

// The bucket of an entry among so many. Each entry fits its form.
fn bucket_of_entry(entry: &(KeyBytes, Option<Place>), buckets: u64) -> u64
    requires { 0 < buckets }
    ensures of_key { result ≡ bucket_of buckets entry.now.0 }
    ensures there { result < buckets }
    ensures fit { PairFits entry.now }
{
    let key = entry.0.as_slice();
    fits(key, entry.1);
    bucket_of(key, buckets)
}

/// The chains of so many buckets, by one pass from the last entry to the first.
pub(crate) fn chain_up(
    alloc: Global,
    entries: &[(KeyBytes, Option<Place>)],
    buckets: usize,
) -> Result<Chains, AllocError>
    requires { 0 < buckets }
    ensures chained { IfOk result (λ c. Chained entries.now buckets 0 c.first.items c.counts.items c.next.items) }
    ensures fit { IfOk result (λ _. AllByRecursion PairFits entries.now) }
{
    let end = entries.len();
    let mut first = vec![in alloc; end; buckets]?;
    let mut counts = vec![in alloc; 0u64; buckets]?;
    let mut next = vec![in alloc; end; end]?;
    for n in 0..end {
        let i = end - 1 - n;
        let b = bucket_of_entry(&entries[i], buckets as u64) as usize;
        next[i] = first[b];
        first[b] = i;
        counts[b] += 1;
    }
    Ok(Chains {
        first,
        counts,
        next,
    })
}

/// The bytes of a bucket, with its digest.
pub(crate) fn bucket_bytes(
    alloc: Global,
    entries: &[(KeyBytes, Option<Place>)],
    chains: &Chains,
    buckets: usize,
    b: usize,
) -> Result<Vec<u8>, AllocError>
    requires chained { Chained entries.now buckets 0 chains.now.first.items chains.now.counts.items chains.now.next.items }
    requires there { b < buckets }
    ensures { IfOk result (λ bytes. bytes.items ≡ bucket_file (in_bucket buckets entries.now b)) }
{
    let mut out = Vec::new(alloc);
    let count = chains.counts[b];
    push_u64(&mut out, count)?;
    let mut at = chains.first[b];
    for _n in 0..count {
        match entries.get(at) {
            Some(entry) => push_entry(&mut out, entry)?,
            None => unreachable!(),
        }
        at = chains.next[at];
    }
    push_digest(&mut out)?;
    Ok(out)
}

/// Puts the digest of bytes behind them.
pub(crate) fn push_digest(out: &mut Vec<u8>) -> Result<(), AllocError>
    ensures { OnOk result (out.new.items ≡ out.old.items ++ sha256 out.old.items) }
{
    let digest: [u8; 32] = Sha256::digest(out.as_slice());
    out.extend_from_slice(&digest)
}
