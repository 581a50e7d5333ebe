//! Threads that count from one counter until no turn is left.
ghost use Rattle.std.specs.Prelude.{◌≡◌, ◌+◌, ◌*◌, ◌^◌, ◌<◌, ◌≤◌, length, IfOk};
ghost use Rattle.std.specs.Thread.{IsSync};
ghost use Rattle.turn_book.specs.Passes.{IsOf};

use crate::counter::{Counter, Next};
use std::alloc::{AllocError, Global};
use std::sync::Wait;
use std::thread;
use std::thread::Threads;
use turn_book::book::{Pass, TurnBook};

// Takes all turns that the pass has left.
fn count_alone<R: Wait>(rt: &R, book: &TurnBook<Counter>, mut pass: Pass<Counter>) -> Pass<Counter>
    requires { IsOf book.now pass }
    ensures book { IsOf book.now result }
    ensures calls { (result.left ≡ 0) × (length result.mine ≡ length pass.mine + pass.left) }
{
    while 0 < pass.left() {
        book.turn(rt, &mut pass, &mut Next);
    }
    pass
}

/// Takes all turns that the pass has left, in so many threads; 0 counts as 1. How many run at once no clause says.
pub fn count_beside<R: Threads + Wait + Sync>(
    rt: &R,
    alloc: Global,
    book: &TurnBook<Counter>,
    mut pass: Pass<Counter>,
    threads: u32,
) -> Pass<Counter>
    requires { IsOf book.now pass }
    ensures book { IsOf book.now result }
    ensures calls { (result.left ≡ 0) × (length result.mine ≡ length pass.mine + pass.left) }
{
    if threads < 2 {
        return count_alone(rt, book, pass);
    }
    let half = pass.left() / 2;
    let Ok(other) = book.split(alloc, &mut pass, half) else {
        return count_alone(rt, book, pass);
    };
    let few = threads / 2;
    let more = threads - few;
    let (mut pass, other) = thread::join(
        rt,
        move || -> Pass<Counter>
            requires { IsSync R.row × IsOf book.now pass }
            ensures { IsOf book.entry.now result × (result.left ≡ 0)
                × (length result.mine ≡ length pass.mine + pass.left) }
        { count_beside(rt, alloc, book, pass, more) },
        move || -> Pass<Counter>
            requires { IsSync R.row × IsOf book.now other }
            ensures { IsOf book.entry.now result × (result.left ≡ 0)
                × (length result.mine ≡ length other.mine + other.left) }
        { count_beside(rt, alloc, book, other, few) },
    );
    book.join(&mut pass, other);
    pass
}

/// So many threads take so many turns together, each of which counts on by one from 0. It answers where the counter
/// ends.
///
/// # Errors
/// Want of memory.
pub fn count_in_threads<R: Threads + Wait + Sync>(
    rt: &R,
    alloc: Global,
    turns: u64,
    threads: u32,
) -> Result<u64, AllocError>
    requires { turns ≤ 2 ^ 62 }
    ensures { IfOk result (λ value. value ≡ turns) }
{
    let (book, pass) = match TurnBook::new(alloc, Counter { value: 0 }, turns) {
        Ok(made) => made,
        Err((_, failed)) => return Err(failed),
    };
    let pass = count_beside(rt, alloc, &book, pass, threads);
    Ok(book.close(pass).value)
}
