use crate::schemas::Schemas;
use case_texts::{bytes_of, bytes_of_hex, hex_of, text_of, values_text};
use fixed_code::{get, put};
use index_level0::KeyBytes;
use key_code::{DecodeFault, KeyFault, decode, encode};
use pk_values::{Key, Schema};
use std::alloc::{AllocError, Global};
use std::cmp::Ordering;

fn coded(alloc: Global, code: &[u8], read: i128) -> Result<String, AllocError> {
    let digits = hex_of(alloc, code)?;
    format!(in alloc; "{digits} reads {read}")
}

/// `code WIDTH NUMBER`: a number's code of so many bytes, and what it reads back as.
pub fn code(alloc: Global, words: &str) -> Result<String, AllocError> {
    let (width, text) = words.split_once(' ').unwrap_or((words, ""));
    if let ("1", Ok(number)) = (width, text.parse::<i8>()) {
        let number = i128::from(number);
        return coded(alloc, &put::<1>(number), get(put::<1>(number)));
    }
    if let ("2", Ok(number)) = (width, text.parse::<i16>()) {
        let number = i128::from(number);
        return coded(alloc, &put::<2>(number), get(put::<2>(number)));
    }
    if let ("4", Ok(number)) = (width, text.parse::<i32>()) {
        let number = i128::from(number);
        return coded(alloc, &put::<4>(number), get(put::<4>(number)));
    }
    if let ("8", Ok(number)) = (width, text.parse::<i64>()) {
        let number = i128::from(number);
        return coded(alloc, &put::<8>(number), get(put::<8>(number)));
    }
    if let ("16", Ok(number)) = (width, text.parse::<i128>()) {
        return coded(alloc, &put::<16>(number), get(put::<16>(number)));
    }
    "no number of that width".to_string(alloc)
}

/// `held BYTES`: what holds at most 128 bytes.
pub fn held(alloc: Global, words: &str) -> Result<String, AllocError> {
    let bytes = bytes_of(alloc, words)?;
    if bytes.len() > 128 {
        return "too long".to_string(alloc);
    }
    text_of(alloc, KeyBytes::from_slice(&bytes).copy().as_slice())
}

/// How one stands to another in an order.
pub fn order_text(order: Ordering) -> &'static str {
    match order {
        Ordering::Less => "less",
        Ordering::Equal => "equal",
        Ordering::Greater => "greater",
    }
}

/// `held-order BYTES, BYTES`: how one stands to the other.
pub fn held_order(alloc: Global, words: &str) -> Result<String, AllocError> {
    let (first, second) = words.split_once(", ").unwrap_or((words, ""));
    let first = bytes_of(alloc, first)?;
    let second = bytes_of(alloc, second)?;
    if first.len() > 128 || second.len() > 128 {
        return "too long".to_string(alloc);
    }
    let order = KeyBytes::from_slice(&first)
        .copy()
        .cmp(&KeyBytes::from_slice(&second));
    order_text(order).to_string(alloc)
}

// The code of a key that was read from a code.
fn again(alloc: Global, schema: &Schema, code: &[u8]) -> Result<String, AllocError> {
    match decode(alloc, schema, code) {
        Ok(key) => match encode(alloc, schema, &key) {
            Ok(code) => coded_key(alloc, &key, code.as_slice()),
            Err(KeyFault::TooLong(length)) => format!(in alloc; "too long: {length}"),
            Err(KeyFault::Memory) => Err(AllocError),
        },
        Err(DecodeFault::NotAKey) => "no key".to_string(alloc),
        Err(DecodeFault::Memory) => Err(AllocError),
    }
}

fn coded_key(alloc: Global, key: &Key, code: &[u8]) -> Result<String, AllocError> {
    let cells = values_text(alloc, &key.cells)?;
    let digits = hex_of(alloc, code)?;
    format!(in alloc; "{cells} coded {digits}")
}

/// `key HEX`: the key of a code, and that key's code.
pub fn key(alloc: Global, schemas: &Schemas, words: &str) -> Result<String, AllocError> {
    let code = bytes_of_hex(alloc, words)?;
    match &schemas.schema {
        Some(schema) => again(alloc, schema, &code),
        None => "no table".to_string(alloc),
    }
}
