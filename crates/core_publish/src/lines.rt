ghost use Rattle.std.specs.Prelude.{◌≡◌, ◌<◌, IfOk, All, None, length};
ghost use Rattle.std.specs.Ordering.{eq_by_cmp};
ghost use Rattle.key_code.specs.KeyCode.{key_code};
ghost use Rattle.key_code.specs.Prefixes.{AreBytes, prefix_of};
ghost use Rattle.pk_model.specs.Merges.{names_next};
ghost use Rattle.pk_model.specs.Tables.{key_named};
ghost use Rattle.pk_values.specs.Order.{key_cmp};
ghost use Rattle.pk_values.specs.Schemas.{Layout, schema_fault};
ghost use Rattle.core_publish.specs.Lines.{AreCounted, IsOrder, IsRanked, IsShortKey, key_at, lines_in, op_at, rank_cmp};

use index_level0::KeyBytes;
use key_code::{KeyFault, encode, prefix};
use pk_model::Op;
use pk_values::{Key, Schema, Value};
use std::alloc::{AllocError, Global};
use std::cmp::Ordering;

/// The place of a line in its load, counted from 0, beside the first eight bytes of the code of the line's key, as a
/// number.
#[derive(Clone, Copy, Drop)]
pub struct Rank {
    pub number: u64,
    pub line: usize,
}

/// The code of a key that has one.
pub fn code_of(alloc: Global, schema: &Schema, key: &Key) -> Result<KeyBytes, AllocError>
    requires { IsShortKey schema.now key.now }
    ensures { IfOk result (λ code. code ≡ key_code schema.now key.now) }
{
    match encode(alloc, schema, key) {
        Ok(code) => Ok(code),
        Err(KeyFault::Memory) => Err(AllocError),
        Err(KeyFault::TooLong(_)) => unreachable!(),
    }
}

// The number of a key's code.
fn number_of(alloc: Global, schema: &Schema, key: &Key) -> Result<u64, AllocError>
    requires { IsShortKey schema.now key.now }
    ensures number { IfOk result (λ number. number ≡ prefix_of (key_code schema.now key.now)) }
    ensures bytes { IfOk result (λ _. AreBytes (key_code schema.now key.now)) }
{
    let code = code_of(alloc, schema, key)?;
    Ok(prefix(&code))
}

/// The line in a place.
pub fn op_at(ops: &[Op], line: usize) -> &Op
    requires { line < length ops.now }
    ensures { result.now ≡ op_at ops.now line }
{
    &ops[line]
}

/// Each line by its place, in file order.
pub fn ranked(alloc: Global, schema: &Schema, ops: &[Op]) -> Result<Vec<Rank>, AllocError>
    requires { All (λ op. IsShortKey schema.now (key_named op)) ops.now }
    ensures ranked { IfOk result (λ ranks. All (IsRanked schema.now ops.now) ranks.items) }
    ensures counted { IfOk result (λ ranks. AreCounted 0 ranks.items) }
    ensures each { IfOk result (λ ranks. length ranks.items ≡ length ops.now) }
{
    let mut ranks = Vec::with_capacity(alloc, ops.len())?;
    for line in 0..ops.len() {
        let number = number_of(alloc, schema, op_at(ops, line).key())?;
        ranks.push(Rank { number, line })?;
    }
    Ok(ranks)
}

// The cells of the key that a line names; none where there is no such line.
fn key_at(ops: &[Op], line: usize) -> &[Value]
    ensures { result.now ≡ key_at ops.now line }
{
    match ops.get(line) {
        Some(op) => &op.key().cells,
        None => &[],
    }
}

// How two lines stand to each other: by their numbers, and where these are the same by their keys.
fn cmp_ranks(ops: &[Op], a: &Rank, b: &Rank) -> Ordering
    ensures { result ≡ rank_cmp ops.now a.now b.now }
{
    match a.number.cmp(&b.number) {
        Ordering::Less => Ordering::Less,
        Ordering::Equal => key_at(ops, a.line).cmp(&key_at(ops, b.line)),
        Ordering::Greater => Ordering::Greater,
    }
}

/// Lines in the order of their keys; those of one key stay in file order. No line moves, but its place among the ranks.
/// They are sorted by their numbers first; the second sort then finds all in order but the lines of one number.
pub fn in_order(ops: &[Op], mut ranks: Vec<Rank>) -> Result<Vec<Rank>, AllocError>
    ensures { IfOk result (λ order. (s : Layout) → schema_fault s.columns s.keys ≡ None
        → All (IsRanked s ops.now) ranks.items → AreCounted 0 ranks.items → length ranks.items ≡ length ops.now
        → IsOrder s ops.now order.items) }
{
    ranks.sort_by_key(|rank| rank.number)?;
    ranks.sort_by(|a, b| cmp_ranks(ops, a, b))?;
    Ok(ranks)
}

// Whether two lines name one key.
fn name_one_key(ops: &[Op], a: &Rank, b: &Rank) -> bool
    ensures { result ≡ eq_by_cmp key_cmp (key_at ops.now a.now.line) (key_at ops.now b.now.line) }
{
    key_at(ops, a.line).cmp(&key_at(ops, b.line)).is_eq()
}

/// Whether the next line names the key of this one. It looks at both keys, so the next line's is at hand when its turn
/// comes.
pub fn is_named_next(ops: &[Op], rank: &Rank, later: &[Rank]) -> bool
    ensures { result ≡ names_next (key_at ops.now rank.now.line) (lines_in ops.now later.now) }
{
    match later {
        [next, ..] => name_one_key(ops, rank, next),
        [] => false,
    }
}
