ghost use Rattle.std.specs.Prelude.{◌≡◌, ◌+◌, ◌^◌, ◌<◌, ◌≤◌, length, IfOk};

use dev_traits::Memory;
use std::alloc::Global;
use std::marker::Model;

/// A body as an append writes it: its length as a u64, the highest byte first, the body and a closed gate. Contracts
/// see the body.
#[derive(Drop)]
pub struct Framed {
    bytes: Vec<u8>,
}

impl Model for Framed {
    ghost use Rattle.std.specs.Prelude.{List, ℕ};

    ghost Value = { List ℕ };

    ghost use Rattle.gated_log.specs.Framed.{body_in, IsFramed};

    ghost view = { λ f. body_in f.bytes.items };

    ghost invariant = { λ f. IsFramed f.bytes.items };
}

impl Framed {
    ghost use Rattle.std.specs.Prelude.{[], ◌∷◌, ◌++◌};
    ghost use Rattle.gated_log.specs.Log.{frame};

    /// How many bytes its append writes, with the byte that opens the gate.
    pub fn room(&self) -> u64
        ensures { result ≡ length self.now + 10 }
    {
        self.bytes.len() as u64 + 1
    }

    pub(crate) fn bytes(&self) -> &[u8]
        ensures form { result.now ≡ frame self.now ++ 0 ∷ [] }
        ensures short { length self.now < 2 ^ 63 }
        ensures long { 1 ≤ length self.now }
    {
        &self.bytes
    }
}

/// A body of at least 1 byte in its frame.
pub fn frame(alloc: Global, body: &[u8]) -> Result<Framed, Memory>
    requires { 1 ≤ length body.now }
    ensures { IfOk result (λ framed. framed ≡ body.now) }
{
    let mut bytes = Vec::new(alloc);
    bytes.extend_from_slice(&(body.len() as u64).to_be_bytes())?;
    bytes.extend_from_slice(body)?;
    bytes.push(0)?;
    Ok(Framed { bytes })
}
