use crate::texts::{entry_text, pair_of, pairs_text};
use case_texts::{bytes_of_hex, hex_of};
use index_file::{hash, read_body, read_bucket};
use index_level0::Level0;
use std::alloc::{AllocError, Global};

/// `hash KEY`: the hash of a key; a word of one letter is the empty key.
pub fn hash_of(alloc: Global, words: &str) -> Result<String, AllocError> {
    let hash = hash(&bytes_of_hex(alloc, words)?);
    hex_of(alloc, &hash.to_be_bytes())
}

/// `bucket HEX`: the entries of a bucket, whose bytes but for its digest these are.
pub fn bucket(alloc: Global, words: &str) -> Result<String, AllocError> {
    match read_bucket(alloc, &bytes_of_hex(alloc, words)?)? {
        Some(entries) => pairs_text(alloc, &entries),
        None => "no bucket".to_string(alloc),
    }
}

/// `body HEX`: the edit and the changes of a body of the index log.
pub fn body(alloc: Global, words: &str) -> Result<String, AllocError> {
    match read_body(alloc, &bytes_of_hex(alloc, words)?)? {
        Some((edit, changes)) => {
            let changes = pairs_text(alloc, &changes)?;
            format!(in alloc; "edit {edit}, {changes}")
        }
        None => "no body".to_string(alloc),
    }
}

/// `put KEY SEGMENT ROW` and `put KEY -`: a place, or a tombstone, in level 0, and how many entries there are then.
pub fn put(alloc: Global, level: &mut Level0, words: &str) -> Result<String, AllocError> {
    let Some((key, place)) = pair_of(alloc, words)? else {
        return "too long".to_string(alloc);
    };
    if level.len() == Level0::MOST_ENTRIES {
        return "full".to_string(alloc);
    }
    level.reserve(1)?;
    level.put(key, place);
    format!(in alloc; "{}", level.len())
}

/// `get KEY`: what level 0 has at a key.
pub fn get(alloc: Global, level: &Level0, words: &str) -> Result<String, AllocError> {
    entry_text(alloc, level.get(&bytes_of_hex(alloc, words)?))
}

/// `entries`: all of level 0.
pub fn entries(alloc: Global, level: &Level0) -> Result<String, AllocError> {
    pairs_text(alloc, &level.entries(alloc)?)
}

/// `clear`: takes all of level 0 out, and tells how many entries there are then.
pub fn clear(alloc: Global, level: &mut Level0) -> Result<String, AllocError> {
    level.clear();
    format!(in alloc; "{}", level.len())
}
