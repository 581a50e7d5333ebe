ghost use Rattle.std.specs.Prelude.{◌≡◌, ◌^◌, ◌<◌, ◌≤◌, IfOk, OnOk, OnErr, length, slice_set};

use dev_traits::Memory;
use std::alloc::Global;
use std::marker::Model;
use std::sync::Arc;

/// The bytes of a file, at most 2^44, with several owners. None sees another's bytes change. Contracts see the bytes.
#[derive(Drop)]
pub struct SharedBytes {
    bytes: Arc<Vec<u8>, Global>,
}

impl Model for SharedBytes {
    ghost use Rattle.std.specs.Prelude.{List, ℕ, length, ◌≤◌, ◌^◌};
    ghost use Rattle.std.specs.Arc.{arc_value};

    ghost Value = { List ℕ };

    ghost view = { λ s. (arc_value s.bytes).items };

    ghost invariant = { λ s. length (arc_value s.bytes).items ≤ 2 ^ 44 };
}

impl SharedBytes {
    /// Bytes with one owner.
    pub fn new(alloc: Global, bytes: Vec<u8>) -> Result<SharedBytes, Memory>
        requires { length bytes.items ≤ 2 ^ 44 }
        ensures { IfOk result (λ shared. shared ≡ bytes.items) }
    {
        Ok(SharedBytes {
            bytes: Arc::new(alloc, bytes)?,
        })
    }

    /// Another owner, which takes no memory. It is refused only where there are as many owners as can be counted.
    pub fn another(&self) -> Result<SharedBytes, Memory>
        ensures same { IfOk result (λ other. other ≡ self.now) }
        ensures short { length self.now ≤ 2 ^ 44 }
    {
        Ok(SharedBytes {
            bytes: Arc::try_clone(&self.bytes)?,
        })
    }

    /// The bytes.
    pub fn as_slice(&self) -> &[u8]
        ensures bytes { result.now ≡ self.now }
        ensures short { length self.now ≤ 2 ^ 44 }
    {
        self.bytes.as_slice()
    }

    /// Changes a byte for this owner alone, in a copy of the bytes. It answers `Memory`, and changes nothing, where
    /// there is none for the copy.
    pub fn change(&mut self, alloc: Global, at: usize, byte: u8) -> Result<(), Memory>
        requires { at < length self.old }
        ensures done { OnOk result (self.new ≡ slice_set self.old at byte) }
        ensures same { OnErr result (self.new ≡ self.old) }
    {
        let mut bytes = Vec::from_slice(alloc, self.as_slice())?;
        bytes[at] = byte;
        *self = SharedBytes::new(alloc, bytes)?;
        Ok(())
    }
}
