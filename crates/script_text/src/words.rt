ghost use Rattle.std.specs.Prelude.{◌≡◌, ◌<◌, ◌∷◌, [], false, Err, Ok, All, IfNone, IfSome, length, slice_index, take, true};
ghost use Rattle.std.specs.Str.Lines.{lines, strip_carriage_return};
ghost use Rattle.script_text.specs.Scripts.{begins_with, is_blank, one_word, words_of};
ghost use Rattle.script_text.specs.Cuts.{IsCut, begins_with_blank, is_line_feed};

use crate::scripts::ScriptCause;

fn is_blank(byte: u8) -> bool
    ensures { result ≡ is_blank byte }
{
    byte == b' ' || byte == b'\t'
}

fn is_line_feed(byte: u8) -> bool
    ensures { result ≡ is_line_feed byte }
{
    byte == b'\n'
}

// What stands before and after the first line feed.
fn cut_line(text: &[u8]) -> Option<(&[u8], &[u8])>
    ensures some { IfSome result (λ cut. IsCut is_line_feed text.now cut.0.now cut.1.now) }
    ensures none { IfNone result (All (λ b. is_line_feed b ≡ false) text.now) }
{
    match text.iter().position(|byte| is_line_feed(*byte)) {
        Some(at) => Some((&text[..at], &text[at + 1..])),
        None => None,
    }
}

// The place of the first blank.
fn first_blank(line: &[u8]) -> Option<usize>
    ensures within { IfSome result (λ at. at < length line.now) }
    ensures blank { IfSome result (λ at. is_blank (slice_index line.now at) ≡ true) }
    ensures front { IfSome result (λ at. All (λ b. is_blank b ≡ false) (take at line.now)) }
    ensures none { IfNone result (All (λ b. is_blank b ≡ false) line.now) }
{
    line.iter().position(|byte| is_blank(*byte))
}

// What stands before and after the first blank.
fn cut_word(line: &[u8]) -> Option<(&[u8], &[u8])>
    ensures some { IfSome result (λ cut. IsCut is_blank line.now cut.0.now cut.1.now) }
    ensures none { IfNone result (All (λ b. is_blank b ≡ false) line.now) }
{
    match first_blank(line) {
        Some(at) => Some((&line[..at], &line[at + 1..])),
        None => None,
    }
}

fn without_return(line: &[u8]) -> &[u8]
    ensures { result.now ≡ strip_carriage_return line.now }
{
    match line.last() {
        Some(byte) => {
            if *byte == b'\r' {
                &line[..line.len() - 1]
            } else {
                line
            }
        }
        None => line,
    }
}

/// The first line of a text, without its end, and what comes after it; `None` where there is no line.
pub fn next_line(text: &[u8]) -> Option<(&[u8], &[u8])>
    ensures none { IfNone result (lines text.now ≡ []) }
    ensures some { IfSome result (λ cut. lines text.now ≡ cut.0.now ∷ lines cut.1.now) }
    ensures shorter { IfSome result (λ cut. length cut.1.now < length text.now) }
{
    if text.is_empty() {
        return None;
    }
    match cut_line(text) {
        Some((line, rest)) => Some((without_return(line), rest)),
        None => Some((text, &[])),
    }
}

// A line from its first byte on that is no blank.
fn without_blanks(line: &[u8]) -> &[u8]
    ensures words { words_of result.now ≡ words_of line.now }
    ensures begins { begins_with_blank result.now ≡ false }
{
    for (i, byte) in line.iter().enumerate() {
        if !is_blank(*byte) {
            return &line[i..];
        }
    }
    &[]
}

/// The first word of a line and what comes after it; `None` where there is no word.
pub fn next_word(line: &[u8]) -> Option<(&[u8], &[u8])>
    ensures none { IfNone result (words_of line.now ≡ []) }
    ensures some { IfSome result (λ cut. words_of line.now ≡ cut.0.now ∷ words_of cut.1.now) }
{
    let line = without_blanks(line);
    if line.is_empty() {
        return None;
    }
    match cut_word(line) {
        Some((word, rest)) => Some((word, rest)),
        None => Some((line, &[])),
    }
}

/// The word of a text that has just one.
pub fn only_word(text: &[u8]) -> Option<&[u8]>
    ensures none { IfNone result (one_word (words_of text.now) ≡ Err ScriptCause.BadCount) }
    ensures some { IfSome result (λ word. one_word (words_of text.now) ≡ Ok word.now) }
{
    let Some((word, rest)) = next_word(text) else {
        return None;
    };
    match next_word(rest) {
        Some(_) => None,
        None => Some(word),
    }
}

/// Whether a word begins with a byte.
pub fn begins_with(first: u8, word: &[u8]) -> bool
    ensures { result ≡ begins_with first word.now }
{
    match word {
        [] => false,
        [byte, ..] => *byte == first,
    }
}
