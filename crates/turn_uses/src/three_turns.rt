//! A counter with three turns, of which two callers take one each.
ghost use Rattle.std.specs.Prelude.{◌≡◌, ◌+◌, ◌<◌, ◌⊎◌, [], ◌∷◌, IfOk, IsOk};
ghost use Rattle.turn_book.specs.Passes.{IsOf};
ghost use Rattle.turn_book.specs.Standing.{StandsAt};

use crate::counter::{Counter, Next};
use std::alloc::{AllocError, Global};
use std::sync::Wait;
use std::thread;
use std::thread::Threads;
use turn_book::book::{Pass, TurnBook};

/// One turn.
#[derive(Clone, Copy, Debug)]
pub struct Drawn {
    /// Its place in the history, from 1.
    pub place: u64,
    /// The number that was drawn in it.
    pub number: u64,
}

/// What two turns of three came to.
#[derive(Debug, Drop)]
pub struct TwoOfThree {
    /// The place of the first caller's turn.
    pub first: u64,
    /// The place of the second caller's turn.
    pub second: u64,
    /// The turns that the joined pass has left.
    pub left: u64,
    /// The number of calls of the joined pass.
    pub used: u64,
    /// Where the counter ended.
    pub value: u64,
}

fn draw<R: Wait>(
    rt: &R,
    book: &TurnBook<Counter>,
    mut pass: Pass<Counter>,
) -> (Pass<Counter>, Drawn)
    requires book { IsOf book.now pass }
    requires fresh { (0 < pass.left) × (pass.mine ≡ []) }
    ensures book { IsOf book.now result.0 }
    ensures left { result.0.left + 1 ≡ pass.left }
    ensures calls { result.0.mine ≡ result.1.place ∷ [] }
    ensures stands { StandsAt result.0.seen result.1.place result.1.number }
{
    let (place, number) = book.turn(rt, &mut pass, &mut Next);
    (pass, Drawn { place, number })
}

// Both have then seen both turns.
fn meet_both(
    alloc: Global,
    book: &TurnBook<Counter>,
    first: &mut Pass<Counter>,
    second: &mut Pass<Counter>,
    _mine: Drawn,
    _theirs: Drawn,
) -> Result<(), AllocError>
    requires book { IsOf book.now first.old × IsOf book.now second.old }
    requires first { StandsAt first.old.seen _mine.place _mine.number }
    requires second { StandsAt second.old.seen _theirs.place _theirs.number }
    ensures book { IsOf book.now first.new × IsOf book.now second.new }
    ensures always { IsOk result }
    ensures first { StandsAt first.new.seen _mine.place _mine.number
        × StandsAt first.new.seen _theirs.place _theirs.number }
    ensures one { first.new.seen ≡ second.new.seen }
    ensures calls { (first.new.mine ≡ first.old.mine) × (second.new.mine ≡ second.old.mine) }
    ensures left { (first.new.left ≡ first.old.left) × (second.new.left ≡ second.old.left) }
{
    book.meet(alloc, first, second)
}

/// Two threads take one turn each of a counter with three turns, meet and join.
///
/// # Errors
/// Want of memory.
pub fn take_two_of_three<R: Threads + Wait + Sync>(
    rt: &R,
    alloc: Global,
) -> Result<TwoOfThree, AllocError>
    ensures places { IfOk result (λ r. ((r.first ≡ 1) × (r.second ≡ 2)) ⊎ ((r.first ≡ 2) × (r.second ≡ 1))) }
    ensures pass { IfOk result (λ r. (r.left ≡ 1) × (r.used ≡ 2)) }
    ensures value { IfOk result (λ r. r.value ≡ 2) }
{
    let (book, mut first) = match TurnBook::new(alloc, Counter { value: 0 }, 3) {
        Ok(made) => made,
        Err((_, failed)) => return Err(failed),
    };
    let second = book.split(alloc, &mut first, 1)?;
    let lent = &book;
    let ((mut first, mine), (mut second, theirs)) = thread::join(
        rt,
        move || -> (Pass<Counter>, Drawn)
            requires { IsOf lent.now first × (0 < first.left) × (first.mine ≡ []) }
            ensures { IsOf lent.entry.now result.0 × (result.0.left + 1 ≡ first.left)
                × (result.0.mine ≡ result.1.place ∷ []) × StandsAt result.0.seen result.1.place result.1.number }
        { draw(rt, lent, first) },
        move || -> (Pass<Counter>, Drawn)
            requires { IsOf lent.now second × (0 < second.left) × (second.mine ≡ []) }
            ensures { IsOf lent.entry.now result.0 × (result.0.left + 1 ≡ second.left)
                × (result.0.mine ≡ result.1.place ∷ []) × StandsAt result.0.seen result.1.place result.1.number }
        { draw(rt, lent, second) },
    );
    meet_both(alloc, &book, &mut first, &mut second, mine, theirs)?;
    book.join(&mut first, second);
    let (left, used) = (first.left(), first.used());
    Ok(TwoOfThree {
        first: mine.place,
        second: theirs.place,
        left,
        used,
        value: book.close(first).value,
    })
}
