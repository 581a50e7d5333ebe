use std::alloc::{AllocError, Global};

// Where a text stands in one of its escapes.
#[derive(Clone, Copy)]
enum Escape {
    None,
    Begun,
    Hex,
    High(u8),
}

fn digit(byte: u8) -> u8 {
    match byte {
        b'0'..=b'9' => byte - b'0',
        b'a'..=b'f' => byte - b'a' + 10,
        _ => 0,
    }
}

fn pair(high: u8, low: u8) -> u8 {
    digit(high) << 4 | digit(low)
}

fn escaped(byte: u8) -> u8 {
    match byte {
        b'n' => b'\n',
        b'r' => b'\r',
        b't' => b'\t',
        _ => byte,
    }
}

// Takes one byte more of a text.
fn step(bytes: &mut Vec<u8>, escape: Escape, byte: u8) -> Result<Escape, AllocError> {
    let (next, read) = match (escape, byte) {
        (Escape::None, b'\\') => (Escape::Begun, None),
        (Escape::None, _) => (Escape::None, Some(byte)),
        (Escape::Begun, b'x') => (Escape::Hex, None),
        (Escape::Begun, _) => (Escape::None, Some(escaped(byte))),
        (Escape::Hex, _) => (Escape::High(byte), None),
        (Escape::High(high), _) => (Escape::None, Some(pair(high, byte))),
    };
    if let Some(read) = read {
        bytes.push(read)?;
    }
    Ok(next)
}

/// The bytes of a text, in which `\n`, `\r`, `\t`, `\\` and `\xHH` are one byte each.
pub fn bytes_of(alloc: Global, text: &str) -> Result<Vec<u8>, AllocError> {
    let mut bytes = Vec::new(alloc);
    let mut escape = Escape::None;
    for byte in text.bytes() {
        escape = step(&mut bytes, escape, byte)?;
    }
    Ok(bytes)
}

/// The text of bytes, with the same escapes.
pub fn text_of(alloc: Global, bytes: &[u8]) -> Result<String, AllocError> {
    let mut text = String::new(alloc);
    for byte in bytes {
        match *byte {
            b'\\' => text.push_str("\\\\")?,
            b'\n' => text.push_str("\\n")?,
            b'\r' => text.push_str("\\r")?,
            b'\t' => text.push_str("\\t")?,
            b' '..=b'~' => text.push(char::from(*byte))?,
            _ => text.push_str(format!(in alloc; "\\x{byte:02x}")?.as_str())?,
        }
    }
    Ok(text)
}

/// The bytes that hexadecimal digits name, two a byte.
pub fn bytes_of_hex(alloc: Global, digits: &str) -> Result<Vec<u8>, AllocError> {
    let mut bytes = Vec::new(alloc);
    for digits in digits.as_bytes().chunks_exact(2) {
        if let [high, low] = digits {
            bytes.push(pair(*high, *low))?;
        }
    }
    Ok(bytes)
}

/// The hexadecimal digits of bytes.
pub fn hex_of(alloc: Global, bytes: &[u8]) -> Result<String, AllocError> {
    let mut digits = String::new(alloc);
    for byte in bytes {
        digits.push_str(format!(in alloc; "{byte:02x}")?.as_str())?;
    }
    Ok(digits)
}
