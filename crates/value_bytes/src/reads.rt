ghost use Rattle.std.specs.Prelude.{◌≡◌, IfErr, IfOk};
ghost use Rattle.value_bytes.specs.Fields.{Field, Tells, counted, times, u8 as byte_field, u16 as u16_field};
ghost use Rattle.value_bytes.specs.Fields.{u32 as u32_field, u64 as u64_field};
ghost use Rattle.value_bytes.specs.Reads.{NotRead, Reads};
ghost use Rattle.value_bytes.specs.declared.reads.Unread.TheVariants.{NotOne};

use byteorder::{BigEndian, ByteOrder};
use pk_values::Items;
use std::alloc::Global;

/// Why nothing was read.
#[derive(Debug, Drop)]
pub enum Unread {
    /// No value of the field stands at the front of the bytes.
    NotOne,
    Memory,
}

/// A byte, and what follows it.
pub fn read_u8(bytes: &[u8]) -> Result<(u8, &[u8]), Unread>
    ensures one { IfOk result (λ p. Reads byte_field bytes.now p.0 p.1.now) }
    ensures none { IfErr result (λ fault. fault ≡ NotOne → NotRead byte_field bytes.now) }
{
    if bytes.is_empty() {
        return Err(Unread::NotOne);
    }
    Ok((bytes[0], &bytes[1..]))
}

/// A number in two bytes, and what follows it.
pub fn read_u16(bytes: &[u8]) -> Result<(u16, &[u8]), Unread>
    ensures one { IfOk result (λ p. Reads u16_field bytes.now p.0 p.1.now) }
    ensures none { IfErr result (λ fault. fault ≡ NotOne → NotRead u16_field bytes.now) }
{
    if bytes.len() < 2 {
        return Err(Unread::NotOne);
    }
    Ok((BigEndian::read_u16(bytes), &bytes[2..]))
}

/// A number in four bytes, and what follows it.
pub fn read_u32(bytes: &[u8]) -> Result<(u32, &[u8]), Unread>
    ensures one { IfOk result (λ p. Reads u32_field bytes.now p.0 p.1.now) }
    ensures none { IfErr result (λ fault. fault ≡ NotOne → NotRead u32_field bytes.now) }
{
    if bytes.len() < 4 {
        return Err(Unread::NotOne);
    }
    Ok((BigEndian::read_u32(bytes), &bytes[4..]))
}

/// A number in eight bytes, and what follows it.
pub fn read_u64(bytes: &[u8]) -> Result<(u64, &[u8]), Unread>
    ensures one { IfOk result (λ p. Reads u64_field bytes.now p.0 p.1.now) }
    ensures none { IfErr result (λ fault. fault ≡ NotOne → NotRead u64_field bytes.now) }
{
    if bytes.len() < 8 {
        return Err(Unread::NotOne);
    }
    Ok((BigEndian::read_u64(bytes), &bytes[8..]))
}

/// How the values of a field are read from the front of bytes.
pub trait FieldReader {
    type Value: Drop;

    ghost field: { Field Self.Value };

    /// The value, and what follows it.
    fn read(alloc: Global, bytes: &[u8]) -> Result<(Self::Value, &[u8]), Unread>
        ensures one { IfOk result (λ p. Reads field bytes.now p.0 p.1.now) }
        ensures none { IfErr result (λ fault. fault ≡ NotOne → NotRead field bytes.now) };

    ghost tells: { Tells field };
}

/// So many values, and what follows them.
pub fn read_times<F: FieldReader>(
    alloc: Global,
    count: u64,
    bytes: &[u8],
) -> Result<(Items<F::Value>, &[u8]), Unread>
    ensures one { IfOk result (λ p. Reads (times F.field count) bytes.now p.0 p.1.now) }
    ensures none { IfErr result (λ fault. fault ≡ NotOne → NotRead (times F.field count) bytes.now) }
{
    let mut items = Items::new(alloc);
    let mut left = bytes;
    for _ in 0..count {
        match F::read(alloc, left) {
            Ok((item, rest)) => {
                match items.push(item) {
                    Ok(()) => (),
                    Err(_) => return Err(Unread::Memory),
                }
                left = rest;
            }
            Err(fault) => return Err(fault),
        }
    }
    Ok((items, left))
}

/// A list with its count in eight bytes, and what follows it.
pub fn read_long_list<F: FieldReader>(
    alloc: Global,
    bytes: &[u8],
) -> Result<(Items<F::Value>, &[u8]), Unread>
    ensures one { IfOk result (λ p. Reads (counted u64_field F.field) bytes.now p.0 p.1.now) }
    ensures none { IfErr result (λ fault. fault ≡ NotOne → NotRead (counted u64_field F.field) bytes.now) }
{
    match read_u64(bytes) {
        Ok((count, rest)) => read_times::<F>(alloc, count, rest),
        Err(fault) => Err(fault),
    }
}

/// A list with its count in four bytes, and what follows it.
pub fn read_list<F: FieldReader>(
    alloc: Global,
    bytes: &[u8],
) -> Result<(Items<F::Value>, &[u8]), Unread>
    ensures one { IfOk result (λ p. Reads (counted u32_field F.field) bytes.now p.0 p.1.now) }
    ensures none { IfErr result (λ fault. fault ≡ NotOne → NotRead (counted u32_field F.field) bytes.now) }
{
    match read_u32(bytes) {
        Ok((count, rest)) => read_times::<F>(alloc, count as u64, rest),
        Err(fault) => Err(fault),
    }
}
