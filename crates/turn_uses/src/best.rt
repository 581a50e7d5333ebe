//! Two callers: one hands a score in, the other learns of it and compares it with the best.
ghost use Rattle.std.specs.Prelude.{◌≡◌, ◌+◌, ◌<◌, length, IfOk, IsOk};
ghost use mathlib.Core.List.{IsPrefix};
ghost use Rattle.turn_book.specs.Passes.{IsOf};
ghost use Rattle.turn_uses.specs.Scores.{best_after};

use crate::scores::{Best, Compare, Submit};
use std::alloc::{AllocError, Global};
use std::sync::Wait;
use turn_book::book::{Pass, TurnBook};

/// The first caller hands a score in, then both meet, and the second learns how far the score is behind the best of
/// the history that it has seen by then, which begins with all that both had seen.
///
/// # Errors
/// None comes, since `meet` takes no memory.
pub fn behind_best<R: Wait>(
    rt: &R,
    alloc: Global,
    book: &TurnBook<Best>,
    first: &mut Pass<Best>,
    second: &mut Pass<Best>,
    score: u64,
) -> Result<u64, AllocError>
    requires book { IsOf book.now first.old × IsOf book.now second.old }
    requires left { (0 < first.old.left) × (0 < second.old.left) }
    ensures book { IsOf book.now first.new × IsOf book.now second.new }
    ensures always { IsOk result }
    ensures behind { IfOk result (λ behind. score + behind ≡ best_after book.now.opening second.new.seen) }
    ensures begins { IsPrefix first.old.seen second.new.seen × IsPrefix second.old.seen second.new.seen }
    ensures calls { (length first.new.mine ≡ length first.old.mine + 1)
        × (length second.new.mine ≡ length second.old.mine + 1) }
    ensures left { (first.new.left + 1 ≡ first.old.left) × (second.new.left + 1 ≡ second.old.left) }
{
    let (place, ()) = book.turn(rt, first, &mut Submit { score });
    book.meet(alloc, first, second)?;
    let (_, behind) = book.turn(rt, second, &mut Compare { score, place });
    Ok(behind)
}
