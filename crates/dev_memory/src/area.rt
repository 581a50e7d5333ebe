ghost use Rattle.std.specs.Prelude.{◌≡◌, ◌+◌, ◌-◌, ◌^◌, ◌<◌, ◌≤◌, ◌∷◌, [], length, OnOk, IfOk, IsTrue, IsFalse};
ghost use Rattle.dev_traits.specs.Image.{overwritten};

use dev_traits::{LONGEST, Memory};
use std::alloc::{AllocError, Global};
use std::marker::Model;

/// Whether an area that a piece is written to is short enough then.
pub fn is_within(at: u64, piece: &[u8]) -> bool
    ensures within { IsTrue result → at + length piece.now ≤ 2 ^ 44 }
    ensures past { IsFalse result → 2 ^ 44 < at + length piece.now }
{
    at <= LONGEST && piece.len() as u64 <= LONGEST - at
}

/// An area of a store, with room to grow, of at most 2^44 bytes. Contracts see its bytes and how many more it has
/// room for.
#[derive(Drop)]
pub struct Area {
    bytes: Vec<u8>,
}

impl Model for Area {
    ghost use Rattle.std.specs.Prelude.{◌-◌, max, vec_len, vec_capacity};
    ghost use Rattle.dev_memory.specs.Areas.{AreaView, IsArea};

    ghost Value = { AreaView };

    ghost view = { λ a. record { bytes = a.bytes.items; room = vec_capacity a.bytes - max (vec_len a.bytes) 1 } };

    ghost invariant = { λ a. IsArea (vec_capacity a.bytes) (vec_len a.bytes) };
}

impl Area {
    pub fn new(bytes: Vec<u8>) -> Result<Area, Memory>
        requires { length bytes.items ≤ 2 ^ 44 }
        ensures { IfOk result (λ area. area.bytes ≡ bytes.items) }
    {
        let mut bytes = bytes;
        bytes.reserve(1)?;
        Ok(Area { bytes })
    }

    /// An area with the bytes of a slice.
    pub fn from_slice(alloc: Global, bytes: &[u8]) -> Result<Area, Memory>
        requires { length bytes.now ≤ 2 ^ 44 }
        ensures { IfOk result (λ area. area.bytes ≡ bytes.now) }
    {
        Area::new(Vec::from_slice(alloc, bytes)?)
    }

    /// Takes memory for so many bytes more.
    pub fn reserve(&mut self, more: usize) -> Result<(), Memory>
        ensures room { OnOk result (more ≤ self.new.room) }
        ensures same { self.new.bytes ≡ self.old.bytes }
        ensures kept { self.old.room ≤ self.new.room }
    {
        let room = more.checked_add(1).ok_or(AllocError)?;
        self.bytes.reserve(room)
    }

    /// Writes over what is there, and past the end. It takes no memory.
    pub fn write(&mut self, at: usize, piece: &[u8])
        requires inside { at ≤ length self.old.bytes }
        requires room { length piece.now ≤ self.old.room }
        requires short { at + length piece.now ≤ 2 ^ 44 }
        ensures written { self.new.bytes ≡ overwritten self.old.bytes at piece.now }
        ensures spends { self.old.room ≤ self.new.room + length piece.now }
    {
        let over = piece.len().min(self.bytes.len() - at);
        self.bytes[at..at + over].copy_from_slice(&piece[..over]);
        self.bytes.extend_from_slice(&piece[over..]).unwrap();
    }

    /// Takes memory, and writes over what is there, and past the end.
    pub fn overwrite(&mut self, at: usize, piece: &[u8]) -> Result<(), Memory>
        requires inside { at ≤ length self.old.bytes }
        requires short { at + length piece.now ≤ 2 ^ 44 }
        ensures written { OnOk result (self.new.bytes ≡ overwritten self.old.bytes at piece.now) }
    {
        self.reserve(piece.len())?;
        self.write(at, piece);
        Ok(())
    }

    /// Makes it the one byte 0. It takes no memory.
    pub fn blank(&mut self)
        ensures blank { self.new.bytes ≡ 0 ∷ [] }
        ensures kept { self.old.room ≤ self.new.room }
    {
        self.bytes.clear();
        self.bytes.push_reserved(0);
    }

    pub fn as_slice(&self) -> &[u8]
        ensures bytes { result.now ≡ self.now.bytes }
        ensures short { length self.now.bytes ≤ 2 ^ 44 }
    {
        self.bytes.as_slice()
    }

    pub fn into_vec(self) -> Vec<u8>
        ensures bytes { result.items ≡ self.bytes }
        ensures short { length self.bytes ≤ 2 ^ 44 }
    {
        let Area { bytes } = self;
        bytes
    }
}
