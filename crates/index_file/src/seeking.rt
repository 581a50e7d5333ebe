ghost use Rattle.std.specs.Prelude.{◌≡◌, ◌≤◌, ◌++◌, List, ℕ, Some, IfSome, length};
ghost use Rattle.std.specs.FinMap.{find};
ghost use Rattle.std.specs.Cmp.Lexicographic.{slice_cmp};
ghost use Rattle.std.specs.Ordering.{nat_cmp};
ghost use Rattle.index_level0.specs.Levels.{Entry};
ghost use Rattle.index_file.specs.Buckets.{Pair, place_bytes};
ghost use Rattle.index_file.specs.Reading.{IsBucket};
ghost use Rattle.index_file.specs.Seeking.{IsWithin, Sees};

use crate::reading::{read_place, read_u64};
use index_level0::Place;

/// What is seen of an entry at the front of bytes, where its key is looked for.
#[derive(Drop)]
pub enum Front {
    /// The key's place, or None for its tombstone.
    Found(Option<Place>),
    /// How many bytes the entry of another key takes.
    Other(usize),
    NoEntry,
}

// How many bytes the place or tombstone at the front takes.
fn place_length(bytes: &[u8]) -> Option<usize>
    ensures length { (x : Entry) (more : List ℕ) → bytes.now ≡ place_bytes x ++ more → result ≡ Some (length (place_bytes x)) }
    ensures within { IfSome result (λ n. n ≤ length bytes.now) }
{
    if bytes.is_empty() {
        return None;
    }
    if bytes[0] == 0 {
        return Some(1);
    }
    if bytes.len() < 13 {
        return None;
    }
    Some(13)
}

// What is seen of the entry at the front.
fn look(bytes: &[u8], key: &[u8]) -> Front
    ensures sees { Sees bytes.now key.now result }
    ensures within { IsWithin bytes.now result }
{
    if bytes.is_empty() {
        return Front::NoEntry;
    }
    let len = bytes[0] as usize;
    if bytes.len() < 1 + len {
        return Front::NoEntry;
    }
    let behind = &bytes[1 + len..];
    if key.cmp(&bytes[1..1 + len]).is_eq() {
        match read_place(behind) {
            Some((place, _)) => Front::Found(place),
            None => Front::NoEntry,
        }
    } else {
        match place_length(behind) {
            Some(taken) => Front::Other(1 + len + taken),
            None => Front::NoEntry,
        }
    }
}

/// What the entries of a bucket, whose bytes without its digest these are, have at a key, as they are stored. None where the
/// bytes are no bucket's, as far as the search sees them.
pub(crate) fn seek(bytes: &[u8], key: &[u8]) -> Option<Option<Option<Place>>>
    ensures { (es : List Pair) → IsBucket bytes.now es → result ≡ Some (find (slice_cmp nat_cmp) key.now es) }
{
    let count = read_u64(bytes)?;
    let mut at = 8;
    for _n in 0..count {
        match look(&bytes[at..], key) {
            Front::Found(place) => return Some(Some(place)),
            Front::Other(taken) => at += taken,
            Front::NoEntry => return None,
        }
    }
    Some(None)
}
