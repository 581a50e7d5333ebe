ghost use Rattle.std.specs.Prelude.{◌≡◌, ◌<◌, ◌++◌, IfErr, IfOk, length};
ghost use Rattle.value_bytes.specs.Fields.{flag, optional, text, u8 as byte_field, u64 as u64_field};
ghost use Rattle.value_bytes.specs.Reads.{NotRead, Reads};
ghost use Rattle.value_bytes.specs.declared.reads.Unread.TheVariants.{NotOne};

use crate::reads::{FieldReader, Unread, read_u8, read_u64};
use pk_values::Octets;
use std::alloc::Global;

// So many bytes, and what follows them.
fn take_text(alloc: Global, count: u64, bytes: &[u8]) -> Result<(Octets, &[u8]), Unread>
    ensures one { IfOk result (λ p. (length p.0 ≡ count) × (p.0 ++ p.1.now ≡ bytes.now)) }
    ensures none { IfErr result (λ fault. fault ≡ NotOne → length bytes.now < count) }
{
    if (bytes.len() as u64) < count {
        return Err(Unread::NotOne);
    }
    let (text, rest) = bytes.split_at(count as usize);
    match Octets::from_slice(alloc, text) {
        Ok(octets) => Ok((octets, rest)),
        Err(_) => Err(Unread::Memory),
    }
}

/// A text with its length in a byte, and what follows it.
pub fn read_short_text(alloc: Global, bytes: &[u8]) -> Result<(Octets, &[u8]), Unread>
    ensures one { IfOk result (λ p. Reads (text byte_field) bytes.now p.0 p.1.now) }
    ensures none { IfErr result (λ fault. fault ≡ NotOne → NotRead (text byte_field) bytes.now) }
{
    match read_u8(bytes) {
        Ok((count, rest)) => take_text(alloc, count as u64, rest),
        Err(fault) => Err(fault),
    }
}

/// A text with its length in eight bytes, and what follows it.
pub fn read_long_text(alloc: Global, bytes: &[u8]) -> Result<(Octets, &[u8]), Unread>
    ensures one { IfOk result (λ p. Reads (text u64_field) bytes.now p.0 p.1.now) }
    ensures none { IfErr result (λ fault. fault ≡ NotOne → NotRead (text u64_field) bytes.now) }
{
    match read_u64(bytes) {
        Ok((count, rest)) => take_text(alloc, count, rest),
        Err(fault) => Err(fault),
    }
}

/// A truth value, and what follows it.
pub fn read_flag(bytes: &[u8]) -> Result<(bool, &[u8]), Unread>
    ensures one { IfOk result (λ p. Reads flag bytes.now p.0 p.1.now) }
    ensures none { IfErr result (λ fault. fault ≡ NotOne → NotRead flag bytes.now) }
{
    match bytes {
        [0, rest @ ..] => Ok((false, rest)),
        [1, rest @ ..] => Ok((true, rest)),
        _ => Err(Unread::NotOne),
    }
}

/// What may be absent, and what follows it.
pub fn read_optional<F: FieldReader>(
    alloc: Global,
    bytes: &[u8],
) -> Result<(Option<F::Value>, &[u8]), Unread>
    ensures one { IfOk result (λ p. Reads (optional F.field) bytes.now p.0 p.1.now) }
    ensures none { IfErr result (λ fault. fault ≡ NotOne → NotRead (optional F.field) bytes.now) }
{
    match bytes {
        [0, rest @ ..] => Ok((None, rest)),
        [1, rest @ ..] => match F::read(alloc, rest) {
            Ok((value, left)) => Ok((Some(value), left)),
            Err(fault) => Err(fault),
        },
        _ => Err(Unread::NotOne),
    }
}
