ghost use Rattle.std.specs.Prelude.{◌≡◌, All, IfOk, OnOk};
ghost use Rattle.pk_model.specs.Tables.{key_named};
ghost use Rattle.partial_loads.specs.Folded.{AreFolded, first_change, folded_lines, others, with_line};
ghost use Rattle.partial_loads.specs.Lines.{IsShortKey};

use crate::changes::KeyChange;
use crate::lines::{Line, coded, sorted};
use index_level0::KeyBytes;
use pk_model::Op;
use pk_values::{Key, Schema};
use std::alloc::{AllocError, Global};
use std::collections::VecDeque;

/// A key that a load names, with its code, and what its lines come to.
#[derive(Drop)]
pub struct Folded {
    pub code: KeyBytes,
    pub key: Key,
    pub change: KeyChange,
}

/// The keys that lines name, in their order, each with its code and with what its lines come to. The lines are sorted
/// once, by the codes of their keys, and gone through once, from the last one on. They carry the columns `given`, and
/// where there is a `when`, an upsert takes effect only where its cell in that column isn't below the old row's.
///
/// # Errors
/// Want of memory.
pub fn fold_lines(
    alloc: Global,
    schema: &Schema,
    given: &[u32],
    when: Option<u32>,
    lines: Vec<Op>,
) -> Result<Vec<Folded>, AllocError>
    requires short { All (λ op. IsShortKey schema.now (key_named op)) lines.items }
    ensures { IfOk result (λ folded. AreFolded schema.now given.now when lines.items folded.items) }
{
    let in_order = sorted(coded(alloc, schema, lines)?)?;
    let folded = folded_lines(alloc, given, when, in_order)?;
    Ok(Vec::from(folded))
}

// Folds lines in the order of their keys, from the last one on.
fn folded_lines(
    alloc: Global,
    given: &[u32],
    when: Option<u32>,
    mut lines: Vec<Line>,
) -> Result<VecDeque<Folded>, AllocError>
    ensures { IfOk result (λ folded. folded.items ≡ folded_lines given.now when lines.items) }
{
    let mut folded = VecDeque::with_capacity(alloc, lines.len())?;
    while let Some(line) = lines.pop() {
        put_line(&mut folded, given, when, line)?;
    }
    Ok(folded)
}

// Puts a line before folded ones, of which the first may be of its key.
fn put_line(
    folded: &mut VecDeque<Folded>,
    given: &[u32],
    when: Option<u32>,
    line: Line,
) -> Result<(), AllocError>
    ensures { OnOk result (folded.new.items ≡ with_line given.now when line folded.old.items) }
{
    let Line { code, op } = line;
    let (key, first) = KeyChange::of_line(op);
    let later = take_change(folded, &key);
    let change = first.then(given, when, later);
    folded.push_front(Folded { code, key, change })?;
    Ok(())
}

// Takes the first key off, where it is this one.
fn take_change(folded: &mut VecDeque<Folded>, key: &Key) -> KeyChange
    ensures change { result ≡ first_change key.now folded.old.items }
    ensures others { folded.new.items ≡ others key.now folded.old.items }
{
    let is_first = match folded.front() {
        Some(first) => first.key == *key,
        None => false,
    };
    if !is_first {
        return KeyChange::Keep;
    }
    match folded.pop_front() {
        Some(Folded { change, .. }) => change,
        None => KeyChange::Keep,
    }
}
