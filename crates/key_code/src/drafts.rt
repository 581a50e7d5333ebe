ghost use Rattle.std.specs.Prelude.{◌≡◌, ◌<◌, ◌≤◌, ◌+◌, ◌^◌, [], ◌∷◌, ◌++◌, IfErr, IfOk, length, take};
ghost use Rattle.key_code.specs.Drafts.{draft_of, with_more};

use index_level0::KeyBytes;
use std::marker::Model;

/// A code that is being written: its first 128 bytes, and how many it has.
pub struct CodeDraft {
    bytes: [u8; 128],
    count: u64,
}

impl Model for CodeDraft {
    ghost use Rattle.std.specs.Prelude.{take};
    ghost use Rattle.key_code.specs.Drafts.{Draft};

    ghost Value = { Draft };

    ghost view = { λ d. record { first = take d.count d.bytes; count = d.count } };
}

// Puts a piece behind so many bytes, as far as it has a place.
fn put_piece(bytes: &mut [u8; 128], count: u64, piece: &[u8])
    ensures { take (count + length piece.now) bytes.new ≡ take 128 (take count bytes.old ++ piece.now) }
{
    if count >= 128 {
        return;
    }
    let start = count as usize;
    if piece.len() <= 128 - start {
        bytes[start..start + piece.len()].copy_from_slice(piece);
        return;
    }
    bytes[start..].copy_from_slice(&piece[..128 - start]);
}

impl CodeDraft {
    /// No byte yet.
    pub fn new() -> CodeDraft
        ensures { result ≡ draft_of [] }
    {
        CodeDraft {
            bytes: [0; 128],
            count: 0,
        }
    }

    /// Puts these bytes behind the others.
    pub fn extend(&mut self, piece: &[u8])
        requires { self.old.count + length piece.now < 2 ^ 64 }
        ensures { self.new ≡ with_more self.old piece.now }
    {
        put_piece(&mut self.bytes, self.count, piece);
        self.count += piece.len() as u64;
    }

    /// Puts a byte behind the others.
    pub fn push(&mut self, byte: u8)
        requires { self.old.count + 1 < 2 ^ 64 }
        ensures { self.new ≡ with_more self.old (byte ∷ []) }
    {
        self.extend(&[byte]);
    }

    /// The whole code.
    ///
    /// # Errors
    /// Its length where that is above 128.
    pub fn finish(self) -> Result<KeyBytes, u64>
        ensures whole { IfOk result (λ code. code ≡ self.first) }
        ensures short { IfOk result (λ code. self.count ≤ 128) }
        ensures long { IfErr result (λ count. (count ≡ self.count) × (128 < self.count)) }
    {
        let CodeDraft { bytes, count } = self;
        if count > 128 {
            return Err(count);
        }
        Ok(KeyBytes::from_array(bytes, count as u8))
    }
}
