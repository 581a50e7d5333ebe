ghost use Rattle.std.specs.Prelude.{◌≡◌};
ghost use Rattle.key_code.specs.Prefixes.{AreBytes, CodesByPrefix, KeysByPrefix, prefix_of};

use byteorder::{BigEndian, ByteOrder};
use index_level0::KeyBytes;

/// The first eight bytes of a code as a number, the high one first; where there are fewer, zero
/// bytes stand behind them.
///
/// Codes of different prefixes compare as the prefixes do ([`prefix_order`]), so codes are in order
/// by their prefix, and by themselves where two have the same.
pub fn prefix(code: &KeyBytes) -> u64
    ensures value { result ≡ prefix_of code.now }
    ensures bytes { AreBytes code.now }
{
    let bytes = code.as_slice();
    match bytes.first_chunk::<8>() {
        Some(first) => BigEndian::read_u64(first),
        None => {
            let mut padded = [0; 8];
            padded[..bytes.len()].copy_from_slice(bytes);
            BigEndian::read_u64(&padded)
        }
    }
}

/// Codes, and keys, of different prefixes compare as the prefixes do. It does nothing when it is called.
pub fn prefix_order()
    ensures codes { CodesByPrefix }
    ensures keys { KeysByPrefix }
{}
