ghost use Rattle.std.specs.Prelude.{◌≡◌, ◌++◌, OnOk, decimal};

use itoa::Buffer;
use std::alloc::AllocError;

/// Appends bytes to a text.
pub fn put_bytes(out: &mut Vec<u8>, piece: &[u8]) -> Result<(), AllocError>
    ensures { OnOk result (out.new.items ≡ out.old.items ++ piece.now) }
{
    out.extend_from_slice(piece)
}

/// Appends a number in decimal.
pub fn put_number(out: &mut Vec<u8>, number: u64) -> Result<(), AllocError>
    ensures { OnOk result (out.new.items ≡ out.old.items ++ decimal number) }
{
    let mut digits = Buffer::new();
    put_bytes(out, digits.format(number).as_bytes())
}

/// Appends a word and a number.
pub fn put_counted(out: &mut Vec<u8>, word: &[u8], number: u64) -> Result<(), AllocError>
    ensures { OnOk result (out.new.items ≡ out.old.items ++ word.now ++ decimal number) }
{
    put_bytes(out, word)?;
    put_number(out, number)
}
