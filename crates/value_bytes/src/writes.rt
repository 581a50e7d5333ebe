ghost use Rattle.std.specs.Prelude.{◌≡◌, ◌++◌, All, OnOk, OnErr};
ghost use Rattle.std.specs.List.{flat_map};
ghost use Rattle.value_bytes.specs.Fields.{Field, counted, flag, optional, text, u8 as byte_field, u16 as u16_field};
ghost use Rattle.value_bytes.specs.Fields.{u32 as u32_field, u64 as u64_field};
ghost use Rattle.value_bytes.specs.Writes.{KeepsFront};

use byteorder::{BigEndian, ByteOrder};
use pk_values::{Items, Octets};
use std::alloc::{AllocError, Global};

/// Appends a byte. On Err nothing is appended.
pub fn put_u8(out: &mut Vec<u8>, number: u8) -> Result<(), AllocError>
    ensures ok { OnOk result (out.new.items ≡ out.old.items ++ (byte_field).bytes number) }
    ensures err { OnErr result (out.new.items ≡ out.old.items) }
{
    Ok(out.push(number)?)
}

/// Appends a number in two bytes. On Err nothing is appended.
pub fn put_u16(out: &mut Vec<u8>, number: u16) -> Result<(), AllocError>
    ensures ok { OnOk result (out.new.items ≡ out.old.items ++ (u16_field).bytes number) }
    ensures err { OnErr result (out.new.items ≡ out.old.items) }
{
    let mut bytes = [0; 2];
    BigEndian::write_u16(&mut bytes, number);
    out.extend_from_slice(&bytes)
}

/// Appends a number in four bytes. On Err nothing is appended.
pub fn put_u32(out: &mut Vec<u8>, number: u32) -> Result<(), AllocError>
    ensures ok { OnOk result (out.new.items ≡ out.old.items ++ (u32_field).bytes number) }
    ensures err { OnErr result (out.new.items ≡ out.old.items) }
{
    let mut bytes = [0; 4];
    BigEndian::write_u32(&mut bytes, number);
    out.extend_from_slice(&bytes)
}

/// Appends a number in eight bytes. On Err nothing is appended.
pub fn put_u64(out: &mut Vec<u8>, number: u64) -> Result<(), AllocError>
    ensures ok { OnOk result (out.new.items ≡ out.old.items ++ (u64_field).bytes number) }
    ensures err { OnErr result (out.new.items ≡ out.old.items) }
{
    let mut bytes = [0; 8];
    BigEndian::write_u64(&mut bytes, number);
    out.extend_from_slice(&bytes)
}

/// Appends a truth value. On Err nothing is appended.
pub fn put_flag(out: &mut Vec<u8>, truth: bool) -> Result<(), AllocError>
    ensures ok { OnOk result (out.new.items ≡ out.old.items ++ flag.bytes truth) }
    ensures err { OnErr result (out.new.items ≡ out.old.items) }
{
    Ok(out.push(u8::from(truth))?)
}

/// Appends a text with its length in a byte. On Err some of its bytes may be appended.
pub fn put_short_text(out: &mut Vec<u8>, octets: &Octets) -> Result<(), AllocError>
    requires { (text byte_field).fits octets.now }
    ensures ok { OnOk result (out.new.items ≡ out.old.items ++ (text byte_field).bytes octets.now) }
    ensures before { KeepsFront out.old.items out.new.items }
{
    let bytes = octets.as_slice();
    out.push(bytes.len() as u8)?;
    out.extend_from_slice(bytes)
}

/// Appends a text with its length in eight bytes. On Err some of its bytes may be appended.
pub fn put_long_text(out: &mut Vec<u8>, octets: &Octets) -> Result<(), AllocError>
    requires { (text u64_field).fits octets.now }
    ensures ok { OnOk result (out.new.items ≡ out.old.items ++ (text u64_field).bytes octets.now) }
    ensures before { KeepsFront out.old.items out.new.items }
{
    let bytes = octets.as_slice();
    put_u64(out, bytes.len() as u64)?;
    out.extend_from_slice(bytes)
}

/// How the values of a field are appended to bytes.
pub trait FieldWriter {
    type Value;

    ghost field: { Field Self.Value };

    /// Appends a value that fits. On Err some of its bytes may be appended.
    fn put(alloc: Global, out: &mut Vec<u8>, value: &Self::Value) -> Result<(), AllocError>
        requires { field.fits value.now }
        ensures ok { OnOk result (out.new.items ≡ out.old.items ++ field.bytes value.now) }
        ensures before { KeepsFront out.old.items out.new.items };
}

/// Appends values that fit, one behind the other. On Err some of their bytes may be appended.
pub fn put_all<F: FieldWriter>(
    alloc: Global,
    out: &mut Vec<u8>,
    items: &[F::Value],
) -> Result<(), AllocError>
    requires { All F.field.fits items.now }
    ensures ok { OnOk result (out.new.items ≡ out.old.items ++ flat_map F.field.bytes items.now) }
    ensures before { KeepsFront out.old.items out.new.items }
{
    for item in items {
        F::put(alloc, out, item)?;
    }
    Ok(())
}

/// Appends a list with its count in eight bytes. On Err some of its bytes may be appended.
pub fn put_long_list<F: FieldWriter>(
    alloc: Global,
    out: &mut Vec<u8>,
    items: &Items<F::Value>,
) -> Result<(), AllocError>
    requires { (counted u64_field F.field).fits items.now }
    ensures ok { OnOk result (out.new.items ≡ out.old.items ++ (counted u64_field F.field).bytes items.now) }
    ensures before { KeepsFront out.old.items out.new.items }
{
    let all = items.as_slice();
    put_u64(out, all.len() as u64)?;
    put_all::<F>(alloc, out, all)
}

/// Appends a list with its count in four bytes. On Err some of its bytes may be appended.
pub fn put_list<F: FieldWriter>(
    alloc: Global,
    out: &mut Vec<u8>,
    items: &Items<F::Value>,
) -> Result<(), AllocError>
    requires { (counted u32_field F.field).fits items.now }
    ensures ok { OnOk result (out.new.items ≡ out.old.items ++ (counted u32_field F.field).bytes items.now) }
    ensures before { KeepsFront out.old.items out.new.items }
{
    let all = items.as_slice();
    put_u32(out, all.len() as u32)?;
    put_all::<F>(alloc, out, all)
}

/// Appends what may be absent. On Err some of its bytes may be appended.
pub fn put_optional<F: FieldWriter>(
    alloc: Global,
    out: &mut Vec<u8>,
    value: &Option<F::Value>,
) -> Result<(), AllocError>
    requires { (optional F.field).fits value.now }
    ensures ok { OnOk result (out.new.items ≡ out.old.items ++ (optional F.field).bytes value.now) }
    ensures before { KeepsFront out.old.items out.new.items }
{
    match value {
        None => Ok(out.push(0)?),
        Some(value) => {
            out.push(1)?;
            F::put(alloc, out, value)
        }
    }
}
