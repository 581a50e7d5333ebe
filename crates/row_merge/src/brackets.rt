ghost use Rattle.std.specs.Prelude.{◌≡◌, ◌<◌, ◌≤◌, IfOk, length};
ghost use Rattle.row_merge.specs.Brackets.{better, end, IsBracket, IsStale, leader, start};
ghost use Rattle.row_merge.specs.Cursors.{AllFit, front_at};

use crate::cursors::Cursor;
use dev_traits::Memory;
use pk_values::Schema;
use std::alloc::Global;

/// A knock-out bracket of parts by their first rows. Where one part has another first row, only the
/// matches on its way to the top are played again.
#[derive(Drop)]
pub enum Bracket {
    /// A part alone.
    Part(usize),
    /// The left side, the first part of the right one, the part that won, and the right side.
    Match(Box<Bracket>, usize, usize, Box<Bracket>),
}

// The cursor of two whose row comes first.
fn better(schema: &Schema, cursors: &[Cursor], a: usize, b: usize) -> usize
    requires a_there { a < length cursors.now }
    requires b_there { b < length cursors.now }
    requires fit { AllFit schema.now cursors.now }
    ensures { result ≡ better schema.now (front_at cursors.now) a b }
{
    if cursors[b].comes_before(schema, &cursors[a]) {
        b
    } else {
        a
    }
}

// The winner of a match of two sides.
fn winner(schema: &Schema, cursors: &[Cursor], left: &Bracket, right: &Bracket) -> usize
    requires fit { AllFit schema.now cursors.now }
    requires left { IsBracket schema.now (front_at cursors.now) (length cursors.now) left.now }
    requires right { IsBracket schema.now (front_at cursors.now) (length cursors.now) right.now }
    ensures { result ≡ better schema.now (front_at cursors.now) (leader left.now) (leader right.now) }
{
    better(schema, cursors, left.first(), right.first())
}

impl Bracket {
    /// The part that has the first row; of parts with the same key the one that stands first.
    pub fn first(&self) -> usize
        ensures { result ≡ leader self.now }
    {
        match self {
            Bracket::Part(part) => *part,
            Bracket::Match(_, _, first, _) => *first,
        }
    }

    /// Plays again the matches of a part.
    pub fn replay(&mut self, schema: &Schema, cursors: &[Cursor], part: usize)
        requires stale { IsStale schema.now (front_at cursors.now) (length cursors.now) part self.old }
        requires fit { AllFit schema.now cursors.now }
        ensures played { IsBracket schema.now (front_at cursors.now) (length cursors.now) self.new }
        ensures start { start self.new ≡ start self.old }
        ensures end { end self.new ≡ end self.old }
    {
        if let Bracket::Match(left, middle, first, right) = self {
            if part < *middle {
                left.replay(schema, cursors, part);
            } else {
                right.replay(schema, cursors, part);
            }
            *first = winner(schema, cursors, left, right);
        }
    }
}

/// The bracket of the parts from one to before another.
pub fn bracket_of(
    alloc: Global,
    schema: &Schema,
    cursors: &[Cursor],
    from: usize,
    to: usize,
) -> Result<Bracket, Memory>
    requires some { from < to }
    requires there { to ≤ length cursors.now }
    requires fit { AllFit schema.now cursors.now }
    ensures played { IfOk result (IsBracket schema.now (front_at cursors.now) (length cursors.now)) }
    ensures start { IfOk result (λ bracket. start bracket ≡ from) }
    ensures end { IfOk result (λ bracket. end bracket ≡ to) }
{
    if to - from == 1 {
        return Ok(Bracket::Part(from));
    }
    let middle = from + (to - from) / 2;
    let left = bracket_of(alloc, schema, cursors, from, middle)?;
    let right = bracket_of(alloc, schema, cursors, middle, to)?;
    let first = winner(schema, cursors, &left, &right);
    let left = Box::new(alloc, left)?;
    let right = Box::new(alloc, right)?;
    Ok(Bracket::Match(left, middle, first, right))
}
