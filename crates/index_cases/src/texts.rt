use case_texts::{bytes_of_hex, hex_of};
use dev_traits::{Damaged, ReadFault, Shown};
use index_level0::{KeyBytes, Place};
use pk_index::Pair;
use std::alloc::{AllocError, Global};

/// The number that a word names, or 0.
pub fn number(word: &str) -> u64 {
    word.parse::<u64>().unwrap_or(0)
}

// The key that hexadecimal digits name, if it has at most 128 bytes; a word of one letter is the empty key.
fn key_of(alloc: Global, digits: &str) -> Result<Option<KeyBytes>, AllocError> {
    let bytes = bytes_of_hex(alloc, digits)?;
    if bytes.len() > 128 {
        return Ok(None);
    }
    Ok(Some(KeyBytes::from_slice(&bytes)))
}

// A place: `SEGMENT ROW`; any other text is a tombstone.
fn place_of(words: &str) -> Option<Place> {
    let (segment, row) = words.split_once(' ')?;
    Some(Place {
        segment: segment.parse::<u64>().ok()?,
        row: row.parse::<u32>().ok()?,
    })
}

/// A key with its place or tombstone: `KEY SEGMENT ROW` or `KEY -`.
pub fn pair_of(alloc: Global, words: &str) -> Result<Option<Pair>, AllocError> {
    let (digits, place) = words.split_once(' ').unwrap_or((words, "-"));
    match key_of(alloc, digits)? {
        Some(key) => Ok(Some((key, place_of(place)))),
        None => Ok(None),
    }
}

// So many keys, the numbers from 0 on in four bytes, each at the row of its number in segment 0.
fn counted(alloc: Global, count: u32) -> Result<Vec<Pair>, AllocError> {
    let mut pairs = Vec::new(alloc);
    for row in 0..count {
        let key = KeyBytes::from_slice(&row.to_be_bytes());
        pairs.push((key, Some(Place { segment: 0, row })))?;
    }
    Ok(pairs)
}

/// Keys with places or tombstones: `many COUNT`, or each as in `pair_of`, with commas between, or none.
pub fn pairs_of(alloc: Global, words: &str) -> Result<Vec<Pair>, AllocError> {
    if let Some(("many", count)) = words.split_once(' ') {
        return counted(alloc, count.parse::<u32>().unwrap_or(0));
    }
    let mut pairs = Vec::new(alloc);
    if words.is_empty() {
        return Ok(pairs);
    }
    for words in words.split(", ") {
        if let Some(pair) = pair_of(alloc, words)? {
            pairs.push(pair)?;
        }
    }
    Ok(pairs)
}

/// `7 3`, or `-` for a tombstone.
pub fn place_text(alloc: Global, place: Option<Place>) -> Result<String, AllocError> {
    match place {
        Some(place) => format!(in alloc; "{} {}", place.segment, place.row),
        None => "-".to_string(alloc),
    }
}

/// What there is at a key: a place, a tombstone or nothing.
pub fn entry_text(alloc: Global, entry: Option<Option<Place>>) -> Result<String, AllocError> {
    match entry {
        Some(place) => place_text(alloc, place),
        None => "nothing".to_string(alloc),
    }
}

fn pair_text(alloc: Global, pair: &Pair) -> Result<String, AllocError> {
    let place = place_text(alloc, pair.1)?;
    if pair.0.as_slice().is_empty() {
        return format!(in alloc; "- {place}");
    }
    let key = hex_of(alloc, pair.0.as_slice())?;
    format!(in alloc; "{key} {place}")
}

/// How many there are, and the first eight.
pub fn pairs_text(alloc: Global, pairs: &[Pair]) -> Result<String, AllocError> {
    let mut text = format!(in alloc; "{}", pairs.len())?;
    for pair in pairs.iter().take(8) {
        text.push_str("; ")?;
        text.push_str(pair_text(alloc, pair)?.as_str())?;
    }
    Ok(text)
}

/// How a part of a file is damaged.
pub fn damage_text(alloc: Global, damaged: &Damaged) -> Result<String, AllocError> {
    let part = damaged.part;
    match damaged.shown {
        Shown::Digests { kept, found } => {
            let kept = hex_of(alloc, &kept.bytes)?;
            let found = hex_of(alloc, &found.bytes)?;
            format!(in alloc; "file {} {part:?} kept {kept} found {found}", damaged.file)
        }
        Shown::Form => format!(in alloc; "file {} {part:?} form", damaged.file),
        Shown::Absent => format!(in alloc; "file {} {part:?} absent", damaged.file),
    }
}

/// What a fault of a reader says.
pub fn fault_text(alloc: Global, fault: &ReadFault) -> Result<String, AllocError> {
    match fault {
        ReadFault::StoreFault => "failed".to_string(alloc),
        ReadFault::Damaged(damaged) => damage_text(alloc, damaged),
        ReadFault::Memory => Err(AllocError),
    }
}
