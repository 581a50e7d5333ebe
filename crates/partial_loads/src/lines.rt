ghost use Rattle.std.specs.Prelude.{◌≡◌, IfOk, All};
ghost use Rattle.key_code.specs.KeyCode.{IsInOrder, key_code};
ghost use Rattle.pk_values.specs.Schemas.{Layout};
ghost use Rattle.pk_model.specs.Tables.{key_named};
ghost use Rattle.partial_loads.specs.Lines.{AreSorted, IsCoded, IsShortKey, ops_of};

use index_level0::KeyBytes;
use key_code::{KeyFault, encode, prefix};
use pk_model::Op;
use pk_values::{Key, Schema};
use std::alloc::{AllocError, Global};

/// A line of a load, with the code of the key that it names.
#[derive(Drop)]
pub struct Line {
    pub code: KeyBytes,
    pub op: Op,
}

// The code of a key that has one.
fn code_of(alloc: Global, schema: &Schema, key: &Key) -> Result<KeyBytes, AllocError>
    requires { IsShortKey schema.now key.now }
    ensures code { IfOk result (λ code. code ≡ key_code schema.now key.now) }
    ensures order { IfOk result (IsInOrder schema.now key.now) }
{
    match encode(alloc, schema, key) {
        Ok(code) => Ok(code),
        Err(KeyFault::Memory) => Err(AllocError),
        Err(KeyFault::TooLong(_)) => unreachable!(),
    }
}

/// Each line with its code.
pub fn coded(alloc: Global, schema: &Schema, ops: Vec<Op>) -> Result<Vec<Line>, AllocError>
    requires { All (λ op. IsShortKey schema.now (key_named op)) ops.items }
    ensures ops { IfOk result (λ lines. ops_of lines.items ≡ ops.items) }
    ensures coded { IfOk result (λ lines. All (IsCoded schema.now) lines.items) }
{
    let mut lines = Vec::with_capacity(alloc, ops.len())?;
    for op in ops {
        let code = code_of(alloc, schema, op.key())?;
        lines.push(Line { code, op })?;
    }
    Ok(lines)
}

/// Sorts lines by the codes of their keys, which is the order of the keys. Lines of one key stay in file order. The
/// first eight bytes of the codes are sorted first, as numbers; the second sort then finds all in order but the lines
/// of one number.
pub fn sorted(mut lines: Vec<Line>) -> Result<Vec<Line>, AllocError>
    ensures { IfOk result (λ sorted. (s : Layout) → All (IsCoded s) lines.items
        → AreSorted s (ops_of lines.items) sorted.items) }
{
    lines.sort_by_cached_key(|line| prefix(&line.code))?;
    lines.sort_by(|a, b| a.code.cmp(&b.code))?;
    Ok(lines)
}
