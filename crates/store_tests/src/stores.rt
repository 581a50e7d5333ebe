ghost use Rattle.std.specs.Prelude.{◌<◌};

use dev_traits::{DevError, FileMaker, Memory, SealedReader, Store};

/// A file of two pieces.
pub fn made<M: FileMaker>(
    maker: &mut M,
    first: &[u8],
    second: &[u8],
) -> Result<M::Sealed, DevError> {
    maker.start()?;
    maker.add(first)?;
    maker.add(second)?;
    maker.seal()
}

// Writes over an area that is long enough.
fn write_inside<S: Store>(store: &mut S, area: u32, at: u64, piece: &[u8]) -> bool
    requires { area < 3 }
{
    if store.room(1, piece.len() as u64).is_err() {
        return false;
    }
    match store.length(area) {
        Ok(length) => 1 <= length && at <= length && store.write_at(area, at, piece).is_ok(),
        Err(_) => false,
    }
}

/// Area 0 has the five bytes from a sync, and a write since over the last two and past the end.
pub fn write_since_a_sync<S: Store>(store: &mut S) -> Result<bool, Memory> {
    store.room(1, 0)?;
    if store.blank(0).is_err() || !write_inside(store, 0, 1, b"abcd") {
        return Ok(false);
    }
    store.room(1, 0)?;
    Ok(store.sync(0).is_ok() && write_inside(store, 0, 3, b"wxyz"))
}

/// Whether a reader reads these bytes, at most 8, from a place to the end.
pub fn reads_from<R: SealedReader>(reader: &mut R, at: u64, bytes: &[u8]) -> bool {
    let mut into = [0u8; 8];
    if bytes.len() > 8 || reader.length() != at.saturating_add(bytes.len() as u64) {
        return false;
    }
    match reader.read_at(at, &mut into[..bytes.len()]) {
        Ok(()) => &into[..bytes.len()] == bytes,
        Err(_) => false,
    }
}
