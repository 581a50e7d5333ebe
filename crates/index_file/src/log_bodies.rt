ghost use Rattle.std.specs.Prelude.{◌≡◌, ℕ, List, IfNone, IfOk, IfSome};
ghost use Rattle.std.specs.FinMap.{is_sorted};
ghost use Rattle.std.specs.Cmp.Lexicographic.{slice_cmp};
ghost use Rattle.std.specs.Ordering.{nat_cmp};
ghost use Rattle.index_file.specs.Buckets.{Pair};
ghost use Rattle.index_file.specs.Reading.{IsBodyOf};

use crate::reading::{read_entries, read_u32, read_u64};
use index_level0::{KeyBytes, Place};
use std::alloc::{AllocError, Global};

/// Whether each key is less than the next one.
pub fn keys_rise(entries: &[(KeyBytes, Option<Place>)]) -> bool
    ensures { result ≡ is_sorted (slice_cmp nat_cmp) entries.now }
{
    for i in 1..entries.len() {
        let first = &entries[i - 1];
        let second = &entries[i];
        if !first.0.cmp(&second.0).is_lt() {
            return false;
        }
    }
    true
}

/// The edit and the changes of the body of the index log that these bytes are; None exactly where they are no body.
pub fn read_body(
    alloc: Global,
    bytes: &[u8],
) -> Result<Option<(u64, Vec<(KeyBytes, Option<Place>)>)>, AllocError>
    ensures some { IfOk result (λ o. IfSome o (λ body. IsBodyOf bytes.now body.0 body.1.items)) }
    ensures none { IfOk result (λ o. IfNone o ((edit : ℕ) (es : List Pair) → IsBodyOf bytes.now edit es → ⊥)) }
{
    if bytes.len() < 12 {
        return Ok(None);
    }
    match (read_u64(bytes), read_u32(&bytes[8..])) {
        (Some(edit), Some(count)) => match read_entries(alloc, &bytes[12..], count as u64)? {
            Some(changes) => {
                if keys_rise(&changes) {
                    Ok(Some((edit, changes)))
                } else {
                    Ok(None)
                }
            }
            None => Ok(None),
        },
        _ => Ok(None),
    }
}
