ghost use Rattle.std.specs.Prelude.{◌≡◌, ◌<◌, ◌≤◌, ◌^◌, List, length, take, drop, IfNone, IfOk, IfSome};
ghost use Rattle.index_file.specs.Buckets.{Pair, u32_bytes, u64_bytes};
ghost use Rattle.index_file.specs.Reading.{AreEntries, IsBucket, IsEntryFront, IsPlaceFront};

use byteorder::{BigEndian, ByteOrder};
use index_level0::{KeyBytes, Place};
use std::alloc::{AllocError, Global};

#[tactic(auto, unfolding(crate::specs::Buckets::u32_bytes))]
pub(crate) fn read_u32(bytes: &[u8]) -> Option<u32>
    ensures some { IfSome result (λ n. (n < 2 ^ 32) × (4 ≤ length bytes.now) × (take 4 bytes.now ≡ u32_bytes n)) }
    ensures none { IfNone result (length bytes.now < 4) }
{
    if bytes.len() < 4 {
        return None;
    }
    Some(BigEndian::read_u32(bytes))
}

#[tactic(auto, unfolding(crate::specs::Buckets::u64_bytes))]
pub(crate) fn read_u64(bytes: &[u8]) -> Option<u64>
    ensures some { IfSome result (λ n. (n < 2 ^ 64) × (8 ≤ length bytes.now) × (take 8 bytes.now ≡ u64_bytes n)) }
    ensures none { IfNone result (length bytes.now < 8) }
{
    if bytes.len() < 8 {
        return None;
    }
    Some(BigEndian::read_u64(bytes))
}

// A place behind its mark.
fn read_numbers(bytes: &[u8]) -> Option<Place>
    ensures some { IfSome result (λ p. (p.segment < 2 ^ 64) × (p.row < 2 ^ 32) × (12 ≤ length bytes.now) × (take 8 bytes.now ≡ u64_bytes p.segment) × (take 4 (drop 8 bytes.now) ≡ u32_bytes p.row)) }
    ensures none { IfNone result (length bytes.now < 12) }
{
    if bytes.len() < 12 {
        return None;
    }
    match (read_u64(bytes), read_u32(&bytes[8..])) {
        (Some(segment), Some(row)) => Some(Place { segment, row }),
        _ => unreachable!(),
    }
}

/// The place or tombstone at the front of bytes, and how many bytes it takes.
pub fn read_place(bytes: &[u8]) -> Option<(Option<Place>, usize)>
    ensures { IsPlaceFront bytes.now result }
{
    if bytes.is_empty() {
        return None;
    }
    if bytes[0] == 0 {
        return Some((None, 1));
    }
    if bytes[0] != 1 {
        return None;
    }
    match read_numbers(&bytes[1..]) {
        Some(place) => Some((Some(place), 13)),
        None => None,
    }
}

/// The entry at the front of bytes, and how many bytes it takes.
pub fn read_entry(bytes: &[u8]) -> Option<((KeyBytes, Option<Place>), usize)>
    ensures { IsEntryFront bytes.now result }
{
    if bytes.is_empty() {
        return None;
    }
    let len = bytes[0] as usize;
    if len > 128 || bytes.len() < 1 + len {
        return None;
    }
    let key = KeyBytes::from_slice(&bytes[1..1 + len]);
    match read_place(&bytes[1 + len..]) {
        Some((place, taken)) => Some(((key, place), 1 + len + taken)),
        None => None,
    }
}

// So many entries, whose bytes are all the bytes.
pub(crate) fn read_entries(
    alloc: Global,
    bytes: &[u8],
    count: u64,
) -> Result<Option<Vec<(KeyBytes, Option<Place>)>>, AllocError>
    ensures some { IfOk result (λ o. IfSome o (λ es. AreEntries count bytes.now es.items)) }
    ensures none { IfOk result (λ o. IfNone o ((es : List Pair) → AreEntries count bytes.now es → ⊥)) }
{
    let mut entries = Vec::new(alloc);
    let mut at = 0;
    for _n in 0..count {
        match read_entry(&bytes[at..]) {
            Some((entry, taken)) => {
                entries.push(entry)?;
                at += taken;
            }
            None => return Ok(None),
        }
    }
    if at == bytes.len() {
        Ok(Some(entries))
    } else {
        Ok(None)
    }
}

/// The entries of a bucket whose bytes, without its digest, these are; None exactly where there are none.
pub fn read_bucket(
    alloc: Global,
    bytes: &[u8],
) -> Result<Option<Vec<(KeyBytes, Option<Place>)>>, AllocError>
    ensures some { IfOk result (λ o. IfSome o (λ es. IsBucket bytes.now es.items)) }
    ensures none { IfOk result (λ o. IfNone o ((es : List Pair) → IsBucket bytes.now es → ⊥)) }
{
    match read_u64(bytes) {
        Some(count) => match read_entries(alloc, &bytes[8..], count)? {
            Some(entries) => Ok(Some(entries)),
            None => Ok(None),
        },
        None => Ok(None),
    }
}
