use dev_traits::{Asked, Inputs, Put, Sink, Source, Taken};
use std::alloc::Global;

// Whether a take of two bytes gives these: none at the end, and nothing where it fails.
fn takes<S: Source>(src: &mut S, want: Option<&[u8]>) -> bool {
    let mut piece = [0u8; 2];
    match (src.take(&mut piece), want) {
        (Taken::Bytes(count), Some(bytes)) => &piece[..count] == bytes,
        (Taken::End, Some(bytes)) => bytes.is_empty(),
        (Taken::Failed, None) => true,
        _ => false,
    }
}

fn takes_all<S: Source>(src: &mut S, wanted: &[Option<&[u8]>]) -> bool {
    for want in wanted {
        if !takes(src, *want) {
            return false;
        }
    }
    true
}

/// Whether the input of a name gives this at each take of two bytes.
pub fn gives<I: Inputs>(
    alloc: Global,
    inputs: &mut I,
    name: &str,
    wanted: &[Option<&[u8]>],
) -> bool {
    match inputs.ask(alloc, name) {
        Asked::Got(mut src) => {
            let all = takes_all(&mut src, wanted);
            inputs.give_back(src);
            all
        }
        _ => false,
    }
}

/// Whether a put takes so many bytes of a piece, or fails.
pub fn puts<K: Sink>(sink: &mut K, piece: &[u8], took: Option<usize>) -> bool {
    if piece.is_empty() {
        return false;
    }
    match (sink.put(piece), took) {
        (Put::Took(count), Some(want)) => count == want,
        (Put::Failed, None) => true,
        _ => false,
    }
}
