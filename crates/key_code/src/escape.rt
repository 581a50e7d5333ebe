ghost use Rattle.std.specs.Prelude.{◌≡◌, ◌≤◌, ◌<◌, ◌+◌, ◌^◌, length, IfOk, IfSome, option_map, drop};
ghost use Rattle.key_code.specs.Drafts.{with_more};
ghost use Rattle.key_code.specs.Escapes.{escaped, escaped_byte, unescaped};

use crate::drafts::CodeDraft;
use std::alloc::{AllocError, Global};

// Appends a byte that is not the last of its text.
fn push_inner(out: &mut CodeDraft, c: u8)
    requires { out.old.count + length (escaped_byte c) < 2 ^ 64 }
    ensures { out.new ≡ with_more out.old (escaped_byte c) }
{
    if c == 0 {
        out.extend(&[0, 1]);
    } else {
        out.push(c);
    }
}

/// Appends a text that more follows: each byte 00 as 00 01, and 00 00 at the end.
pub fn push_escaped(out: &mut CodeDraft, text: &[u8])
    requires { out.old.count + length (escaped text.now) < 2 ^ 64 }
    ensures { out.new ≡ with_more out.old (escaped text.now) }
{
    for c in text {
        push_inner(out, *c);
    }
    out.extend(&[0, 0]);
}

/// The text at the front of the bytes and how many bytes it and its end mark take, if one stands there.
pub fn read_escaped(alloc: Global, bytes: &[u8]) -> Result<Option<(Vec<u8>, usize)>, AllocError>
    ensures text { IfOk result (λ o. option_map (λ p. (p.0.items, drop p.1 bytes.now)) o ≡ unescaped bytes.now) }
    ensures within { IfOk result (λ o. IfSome o (λ p. p.1 ≤ length bytes.now)) }
{
    let mut text = Vec::new(alloc);
    let mut at = 0;
    while at + 1 < bytes.len() {
        let c = bytes[at];
        if c == 0 {
            let d = bytes[at + 1];
            if d == 0 {
                return Ok(Some((text, at + 2)));
            }
            if d != 1 {
                return Ok(None);
            }
            at += 1;
        }
        text.push(c)?;
        at += 1;
    }
    Ok(None)
}
