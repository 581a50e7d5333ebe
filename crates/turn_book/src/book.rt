//! A lock round a value, and the passes of those who use it.
//!
//! Whoever takes a turn has the value alone, does one act on it and adds one entry to the history of the lock. The
//! history is nowhere stored: contracts see in each pass how much of it the holder knows. Places in the history are
//! numbered from 1.
//!
//! Each call asks that the passes that it gets are of this book, as those are that `new` and `split` of this book gave.
ghost use Rattle.std.specs.Prelude.{◌≡◌, ◌+◌, ◌-◌, ◌^◌, ◌<◌, ◌≤◌, List, [], ◌∷◌, ◌++◌, length, Option, Some, None};
ghost use Rattle.std.specs.Prelude.{IfOk, IfErr, IsOk};
ghost use mathlib.Core.List.{IsPrefix};
ghost use Rattle.turn_book.specs.Places.{RiseUpTo, places_after};
ghost use Rattle.turn_book.specs.Passes.{Booking, Holding, IsOf, blank, share, less, Both};

use crate::replayed::{Act, Replayed};
use crate::rule::Terms;
use crate::steps::{Desk, PassSeat, cut, end_all, glue, play_turn};
use atomic_table::{Refused, Table};
use std::alloc::{AllocError, AllocFailed, Global};
use std::marker::{Brand, Model};
use std::snapshot::Snapshot;
use std::sync::Wait;

/// What one caller knows of the history of its book, which of the calls there are its own, and how many turns it may
/// still take. A pass that is dropped takes its turns with it, and its book can then not be closed.
pub struct Pass<T: Replayed> {
    seat: PassSeat<T>,
    left: u64,
    used: u64,
}

impl<T: Replayed> Model for Pass<T> {
    ghost Value = { Holding T.Entry T.Opening };

    ghost view = { λ p. record {
      book = p.seat.table_id;
      opening = p.seat.me.0.opening;
      seen = p.seat.me.0.seen;
      mine
          = p.seat.me.0.mine;
      left = p.seat.me.0.left;
    } };

    ghost invariant = { λ p. (p.seat.me.1 ≡ []) × (p.seat.me.0.stage ≡ 0) × (p.seat.me.0.left ≡ p.left)
        × (length p.seat.me.0.mine ≡ p.used) × (p.left ≤ 2 ^ 62) × (p.used ≤ 2 ^ 62) };
}

impl<T: Replayed> Drop for Pass<T> {
    fn drop(self) {
        let Self {
            seat: _,
            left: _,
            used: _,
        } = self;
    }
}

/// A value that its callers use in turns, each with a pass.
pub struct TurnBook<T: Replayed> {
    table: Desk<T>,
    turns: u64,
}

impl<T: Replayed> Model for TurnBook<T> {
    ghost Value = { Booking T.Opening };

    ghost view = { λ b. record {
      id = b.table.shared.table_id;
      opening = T.opening b.table.shared.key.first.value;
      turns = b.turns;
    } };

    ghost invariant = { λ b. (b.table.shared.table_id.words ≡ 2) × (b.table.shared.table_id.slots ≡ 1)
        × (b.table.shared.key.turns ≡ b.turns) };
}

impl<T: Replayed + Drop> Drop for TurnBook<T> {
    fn drop(self) {
        let Self { table: _, turns: _ } = self;
    }
}

impl<T: Replayed> Pass<T> {
    /// The number of turns that the caller may still take.
    pub fn left(&self) -> u64
        ensures { result ≡ self.now.left }
    {
        self.left
    }

    // The seat, the turns left and the number of calls.
    fn open(self) -> (PassSeat<T>, u64, u64)
        ensures seat { (result.0.table_id ≡ self.book) × (result.0.me.1 ≡ []) × (result.0.me.0.stage ≡ 0) }
        ensures view { (result.0.me.0.opening ≡ self.opening) × (result.0.me.0.seen ≡ self.seen)
            × (result.0.me.0.mine ≡ self.mine) × (result.0.me.0.left ≡ self.left) }
        ensures counts { (result.1 ≡ self.left) × (result.1 ≤ 2 ^ 62) × (result.2 ≡ length self.mine)
            × (result.2 ≤ 2 ^ 62) }
    {
        let Self { seat, left, used } = self;
        (seat, left, used)
    }

    /// The number of calls that are the caller's own.
    pub fn used(&self) -> u64
        ensures { result ≡ length self.now.mine }
    {
        self.used
    }
}

impl<T: Replayed> TurnBook<T> {
    /// The number of turns that all passes of this book had together when it was made.
    pub fn turns(&self) -> u64
        ensures { result ≡ self.now.turns }
    {
        self.turns
    }

    /// Begins a history with the value, with one pass that has all turns.
    ///
    /// # Errors
    /// Want of memory, with the value.
    pub fn new(
        alloc: Global,
        value: T,
        turns: u64,
    ) -> Result<(TurnBook<T>, Pass<T>), (T, AllocError)>
        requires { turns ≤ 2 ^ 62 }
        ensures ok { IfOk result (λ r. (r.0.turns ≡ turns) × (r.0.opening ≡ T.opening value)
            × (r.1 ≡ blank r.0 turns)) }
        ensures err { IfErr result (λ r. r.0 ≡ value) }
    {
        let terms = Terms {
            first: Snapshot::of(&value),
            turns,
        };
        let mut slots = Vec::new(alloc);
        if let Err(AllocFailed { value: slot }) = slots.push(Some(value)) {
            slots.destroy_empty();
            return Err((slot.unwrap(), AllocError));
        }
        match Table::new(alloc, &[0, 0], slots, &terms) {
            Ok((table, seat)) => {
                let pass = Pass {
                    seat,
                    left: turns,
                    used: 0,
                };
                Ok((TurnBook { table, turns }, pass))
            }
            Err(Refused { mut slots }) => {
                let slot = slots.pop().unwrap();
                slots.destroy_empty();
                Err((slot.unwrap(), AllocError))
            }
        }
    }

    // Moves a number of turns to a new pass. A seat at the table takes no memory.
    fn part(&self, pass: &mut Pass<T>, turns: u64) -> Pass<T>
        requires book { IsOf self.now pass.old }
        requires turns { turns ≤ pass.old.left }
        ensures kept { pass.new ≡ less turns pass.old }
        ensures given { result ≡ share turns pass.old }
    {
        let seat = cut::<T, Brand>(&self.table.shared, &mut pass.seat, turns);
        pass.left -= turns;
        Pass {
            seat,
            left: turns,
            used: 0,
        }
    }

    /// Moves a number of turns to a new pass, for another caller, who has seen the same and made no call.
    ///
    /// # Errors
    /// None comes, since a pass takes no memory.
    pub fn split(
        &self,
        _alloc: Global,
        pass: &mut Pass<T>,
        turns: u64,
    ) -> Result<Pass<T>, AllocError>
        requires book { IsOf self.now pass.old }
        requires turns { turns ≤ pass.old.left }
        ensures always { IsOk result }
        ensures kept { pass.new ≡ less turns pass.old }
        ensures given { IfOk result (λ p. p ≡ share turns pass.old) }
    {
        Ok(self.part(pass, turns))
    }

    /// Waits for a turn, plays the act on the value, and answers the place of its entry in the history, with the
    /// act's reply. What was seen before is kept, the entries of others follow it, and the act's own entry is the
    /// last.
    pub fn turn<A: Act<T>, R: Wait>(
        &self,
        rt: &R,
        pass: &mut Pass<T>,
        act: &mut A,
    ) -> (u64, A::Reply)
        requires book { IsOf self.now pass.old }
        requires left { 0 < pass.old.left }
        requires may { A.may act.old self.now.opening pass.old.seen }
        ensures book { IsOf self.now pass.new }
        ensures seen { (between : _) × (pass.new.seen ≡ pass.old.seen ++ between ++ A.entry act.old result.1 ∷ []) }
        ensures legal { T.legal self.now.opening pass.new.seen }
        ensures place { (length pass.new.seen ≡ result.0) × (pass.new.mine ≡ pass.old.mine ++ result.0 ∷ []) }
        ensures order { RiseUpTo (length pass.new.seen) pass.new.mine }
        ensures left { pass.new.left + 1 ≡ pass.old.left }
        ensures told { A.told self.now.opening pass.new.seen act.old act.new result.1 }
    {
        let (place, reply) = play_turn(rt, &self.table.shared, &mut pass.seat, act);
        pass.left -= 1;
        pass.used += 1;
        (place, reply)
    }

    /// Takes in what another pass has seen, its calls and its turns.
    pub fn join(&self, pass: &mut Pass<T>, other: Pass<T>)
        requires book { IsOf self.now pass.old }
        requires other { IsOf self.now other }
        ensures book { IsOf self.now pass.new }
        ensures both { Both pass.old other pass.new }
        ensures legal { T.legal self.now.opening pass.new.seen }
        ensures order { RiseUpTo (length pass.new.seen) pass.new.mine }
    {
        let (seat, left, used) = other.open();
        glue(&self.table.shared, &mut pass.seat, seat);
        pass.left += left;
        pass.used += used;
    }

    /// Each of two passes takes in what the other has seen. Calls and turns stay where they are.
    ///
    /// # Errors
    /// None comes, since a pass takes no memory.
    pub fn meet(
        &self,
        _alloc: Global,
        first: &mut Pass<T>,
        second: &mut Pass<T>,
    ) -> Result<(), AllocError>
        requires first { IsOf self.now first.old }
        requires second { IsOf self.now second.old }
        ensures book { IsOf self.now first.new × IsOf self.now second.new }
        ensures always { IsOk result }
        ensures one { first.new.seen ≡ second.new.seen }
        ensures legal { T.legal self.now.opening first.new.seen }
        ensures begins { IsPrefix first.old.seen first.new.seen × IsPrefix second.old.seen second.new.seen }
        ensures calls { (first.new.mine ≡ first.old.mine) × (second.new.mine ≡ second.old.mine) }
        ensures turns { (first.new.left ≡ first.old.left) × (second.new.left ≡ second.old.left) }
    {
        // A copy of each, with no turns, goes into the other.
        let copy = self.part(first, 0);
        let other = self.part(second, 0);
        self.join(first, other);
        self.join(second, copy);
        Ok(())
    }

    /// Ends the history and gives the value back. The turns that the pass has left and the calls that are its own are
    /// together all turns of the book, so no other pass has either, this one has seen the whole history, and each
    /// call there is its own.
    pub fn close(self, pass: Pass<T>) -> T
        requires book { IsOf self pass }
        requires turns { pass.left + length pass.mine ≡ self.turns }
        ensures outcome { T.outcome self.opening pass.seen result }
        ensures legal { T.legal self.opening pass.seen }
        ensures calls { (pass.mine ≡ places_after 0 (length pass.seen)) × (length pass.mine ≡ length pass.seen) }
    {
        let TurnBook { table, turns: _ } = self;
        let (seat, _, _) = pass.open();
        end_all(table, seat)
    }
}
