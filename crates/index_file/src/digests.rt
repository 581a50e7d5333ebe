ghost use Rattle.std.specs.Prelude.{◌≡◌, ◌↔◌, ◌+◌, IfNone, IfSome, IsTrue, length, take, drop};
ghost use Rattle.sha2.specs.Sha256.{sha256};
ghost use Rattle.index_file.specs.Footers.{DigestsShown};

use dev_traits::{Digest, Shown};
use sha2::{Digest as Hasher, Sha256};

fn is_same(first: Digest, second: Digest) -> bool
    ensures { IsTrue result ↔ (first ≡ second) }
{
    first == second
}

// The digest that is kept behind so many bytes.
fn kept_behind(bytes: &[u8], len: usize) -> Digest
    requires { length bytes.now ≡ len + 32 }
    ensures { result.bytes ≡ drop len bytes.now }
{
    let mut kept = [0; 32];
    kept.copy_from_slice(&bytes[len..]);
    Digest { bytes: kept }
}

fn digest_of(bytes: &[u8]) -> Digest
    ensures { result.bytes ≡ sha256 bytes.now }
{
    let bytes: [u8; 32] = Sha256::digest(bytes);
    Digest { bytes }
}

/// The digest that is kept behind so many bytes and the one that they have, where these differ.
pub fn digests_shown(bytes: &[u8], len: usize) -> Option<Shown>
    requires { length bytes.now ≡ len + 32 }
    ensures differ { IfSome result (λ shown. DigestsShown len bytes.now shown) }
    ensures agree { IfNone result (drop len bytes.now ≡ sha256 (take len bytes.now)) }
{
    let kept = kept_behind(bytes, len);
    let found = digest_of(&bytes[..len]);
    if is_same(kept, found) {
        None
    } else {
        Some(Shown::Digests { kept, found })
    }
}
