ghost use Rattle.std.specs.Prelude.{◌≡◌, ◌≤◌, ◌^◌, ◌*◌, ◌-◌, option_and_then, option_map, pos};
ghost use Rattle.cell_text.specs.Cells.{digits_after, digits_of, minus};
ghost use Rattle.cell_text.specs.Readings.{if_at_most, if_in_bytes, number_in};

// Ten times a number above this is above the limit of every number.
const TENTH: u128 = 0x1000_0000_0000_0000_0000_0000_0000_0000;

// The number that decimal digits spell, if it is at most `most`.
fn digits_within(bytes: &[u8], most: u128) -> Option<u128>
    requires { most ≤ 2 ^ 127 }
    ensures { result ≡ option_and_then (if_at_most most) (digits_after 0 bytes.now) }
{
    let mut number: u128 = 0;
    for byte in bytes {
        if !byte.is_ascii_digit() {
            return None;
        }
        if number > TENTH {
            return None;
        }
        number = number * 10 + u128::from(*byte - b'0');
        if number > most {
            return None;
        }
    }
    Some(number)
}

// The number that one or more decimal digits spell, if it is at most `most`.
fn magnitude(bytes: &[u8], most: u128) -> Option<u128>
    requires { most ≤ 2 ^ 127 }
    ensures { result ≡ option_and_then (if_at_most most) (digits_of bytes.now) }
{
    match bytes {
        [] => None,
        [_, ..] => digits_within(bytes, most),
    }
}

// The number so far below 0.
fn negative(n: u128) -> i128
    requires { n ≤ 2 ^ 127 }
    ensures { result ≡ minus n }
{
    if n == 0 { 0 } else { -((n - 1) as i128) - 1 }
}

// How many numbers from 0 on have so many bytes.
fn half_of(width: usize) -> u128
    requires low { 1 ≤ width }
    requires high { width ≤ 16 }
    ensures value { result ≡ 2 ^ (8 * width - 1) }
    ensures within { result ≤ 2 ^ 127 }
    ensures some { 1 ≤ result }
{
    1 << (8 * width - 1)
}

// The number of `width` bytes that stands so far below 0.
fn number_below(width: usize, digits: &[u8]) -> Option<i128>
    requires low { 1 ≤ width }
    requires high { width ≤ 16 }
    ensures { result ≡ option_and_then (if_in_bytes width) (option_map minus (digits_of digits.now)) }
{
    let n = magnitude(digits, half_of(width))?;
    Some(negative(n))
}

// The number of `width` bytes that digits spell.
fn number_from(width: usize, digits: &[u8]) -> Option<i128>
    requires low { 1 ≤ width }
    requires high { width ≤ 16 }
    ensures { result ≡ option_and_then (if_in_bytes width) (option_map pos (digits_of digits.now)) }
{
    let n = magnitude(digits, half_of(width) - 1)?;
    Some(n as i128)
}

/// The number of `width` bytes that an optional sign and decimal digits spell.
pub fn number(width: usize, bytes: &[u8]) -> Option<i128>
    requires low { 1 ≤ width }
    requires high { width ≤ 16 }
    ensures { result ≡ number_in width bytes.now }
{
    let (first, rest) = bytes.split_first()?;
    if *first == b'-' {
        number_below(width, rest)
    } else if *first == b'+' {
        number_from(width, rest)
    } else {
        number_from(width, bytes)
    }
}
