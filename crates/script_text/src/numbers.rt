ghost use Rattle.std.specs.Prelude.{◌≡◌, option_and_then};
ghost use Rattle.cell_text.specs.Cells.{digits_after, digits_of};
ghost use Rattle.cell_text.specs.Readings.{if_at_most};
ghost use Rattle.script_text.specs.Scripts.{number_spelled};

// The greatest version.
const MOST: u128 = 0xffff_ffff_ffff_ffff;

// The number that decimal digits spell, if it fits 64 bits.
fn digits_within(bytes: &[u8]) -> Option<u128>
    ensures { result ≡ option_and_then (if_at_most MOST) (digits_after 0 bytes.now) }
{
    let mut number: u128 = 0;
    for byte in bytes {
        if !byte.is_ascii_digit() {
            return None;
        }
        number = number * 10 + u128::from(*byte - b'0');
        if number > MOST {
            return None;
        }
    }
    Some(number)
}

// The number that one or more decimal digits spell, if it fits 64 bits.
fn magnitude(bytes: &[u8]) -> Option<u128>
    ensures { result ≡ option_and_then (if_at_most MOST) (digits_of bytes.now) }
{
    match bytes {
        [] => None,
        [_, ..] => digits_within(bytes),
    }
}

/// The number that 1 to 20 decimal digits spell, if it fits 64 bits.
pub fn read_number(word: &[u8]) -> Option<u64>
    ensures { result ≡ number_spelled word.now }
{
    if word.len() > 20 {
        return None;
    }
    match magnitude(word) {
        Some(number) => Some(number as u64),
        None => None,
    }
}
