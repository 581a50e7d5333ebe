ghost use Rattle.std.specs.Prelude.{◌≡◌, ◌∷◌, ◌++◌, ◌<◌, ◌^◌, length, IfOk, OnOk};
ghost use Rattle.std.specs.List.{flat_map};
ghost use Rattle.index_file.specs.Buckets.{bucket_body, entry_bytes, place_bytes, u32_bytes, u64_bytes};

use index_level0::{KeyBytes, Place};
use std::alloc::{AllocError, Global};

#[tactic(auto, unfolding(crate::specs::Buckets::u32_bytes))]
pub(crate) fn push_u32(out: &mut Vec<u8>, n: u32) -> Result<(), AllocError>
    ensures { OnOk result (out.new.items ≡ out.old.items ++ u32_bytes n) }
{
    out.extend_from_slice(&n.to_be_bytes())
}

#[tactic(auto, unfolding(crate::specs::Buckets::u64_bytes))]
pub(crate) fn push_u64(out: &mut Vec<u8>, n: u64) -> Result<(), AllocError>
    ensures { OnOk result (out.new.items ≡ out.old.items ++ u64_bytes n) }
{
    out.extend_from_slice(&n.to_be_bytes())
}

fn push_place(out: &mut Vec<u8>, place: Option<Place>) -> Result<(), AllocError>
    ensures { OnOk result (out.new.items ≡ out.old.items ++ place_bytes place) }
{
    match place {
        Some(place) => {
            out.push(1)?;
            push_u64(out, place.segment)?;
            push_u32(out, place.row)
        }
        None => {
            out.push(0)?;
            Ok(())
        }
    }
}

/// Appends an entry.
pub fn push_entry(out: &mut Vec<u8>, entry: &(KeyBytes, Option<Place>)) -> Result<(), AllocError>
    ensures { OnOk result (out.new.items ≡ out.old.items ++ entry_bytes entry.now) }
{
    let key = entry.0.as_slice();
    out.push(key.len() as u8)?;
    out.extend_from_slice(key)?;
    push_place(out, entry.1)
}

/// The bytes of a bucket without its digest.
pub fn write_bucket(
    alloc: Global,
    entries: &[(KeyBytes, Option<Place>)],
) -> Result<Vec<u8>, AllocError>
    ensures { IfOk result (λ bytes. bytes.items ≡ bucket_body entries.now) }
{
    let mut out = Vec::new(alloc);
    push_u64(&mut out, entries.len() as u64)?;
    for entry in entries {
        push_entry(&mut out, entry)?;
    }
    Ok(out)
}
