//! The steps of a turn, on a seat at the table.
ghost use Rattle.std.specs.Prelude.{◌≡◌, ◌+◌, ◌-◌, ◌^◌, ◌<◌, ◌≤◌, List, [], ◌∷◌, ◌++◌, length, Option, Some, None};
ghost use Rattle.std.specs.Prelude.{IfOk};
ghost use mathlib.Core.List.{IsPrefix};
ghost use Rattle.turn_book.specs.Plays.{waiting, turning, ending, HasTurn, Turned, kept_part, given_part, joined};
ghost use Rattle.turn_book.specs.Plays.{longer, shorter_of};
ghost use Rattle.turn_book.specs.Places.{Rises, RiseUpTo, places_after, merged};

use crate::plays::{Added, Await, Cut, Draw, End, Glue, Look, Parted};
use crate::replayed::{Act, Replayed};
use crate::rule::{InTurn, PassState, Terms};
use atomic_table::{Seat, Shared, Table};
use std::alloc::Global;
use std::marker::Brand;
use std::snapshot::Snapshot;
use std::sync::Wait;

/// The table as those who take turns share it.
pub type Board<T> = Shared<
    Option<T>,
    PassState<<T as Replayed>::Entry, <T as Replayed>::Opening>,
    Terms<T>,
    InTurn<T>,
>;

/// A seat at the table, which a pass holds.
pub type PassSeat<T> = Seat<Option<T>, PassState<<T as Replayed>::Entry, <T as Replayed>::Opening>>;

// Takes a ticket.
pub(crate) fn draw<T: Replayed>(board: &Board<T>, seat: &mut PassSeat<T>) -> u64
    requires place { (seat.old.table_id ≡ board.now.table_id) × (board.now.table_id.words ≡ 2) }
    requires rests { (seat.old.me.0.stage ≡ 0) × (0 < seat.old.me.0.left) }
    ensures place { (seat.new.table_id ≡ seat.old.table_id) × (seat.new.id ≡ seat.old.id) }
    ensures drew { (seat.new.me ≡ (waiting seat.old.me.0 result, seat.old.me.1)) × (result < 2 ^ 62) }
{
    board.fetch_add::<Draw>(seat, 0, 1)
}

// Waits until the ticket is served. The seat then holds the slot.
pub(crate) fn await_turn<T: Replayed, R: Wait>(
    rt: &R,
    board: &Board<T>,
    seat: &mut PassSeat<T>,
    ticket: u64,
)
    requires place { (seat.old.table_id ≡ board.now.table_id) × (board.now.table_id.words ≡ 2) }
    requires waits { (seat.old.me.0.stage ≡ 1) × (seat.old.me.0.ticket ≡ ticket) × (seat.old.me.1 ≡ []) }
    ensures place { (seat.new.table_id ≡ seat.old.table_id) × (seat.new.id ≡ seat.old.id) }
    ensures turn { HasTurn T.legal T.outcome seat.old.me ticket seat.new.me }
{
    for _ in rt.forever() {
        let served = board.load::<Await>(seat, 1);
        if served == ticket {
            return;
        }
        board.park(rt, 1, (served % (1 << 32)) as u32);
    }
    unreachable!()
}

// Gives the slot back, and adds to the history.
pub(crate) fn end<T: Replayed, N: Added<T::Entry>>(board: &Board<T>, seat: &mut PassSeat<T>)
    requires place { (seat.old.table_id ≡ board.now.table_id) × (board.now.table_id.words ≡ 2) }
    requires turn { (e : _) × (y : _) × (seat.old.me.0.stage ≡ 2) × (seat.old.me.1 ≡ (0, Some y) ∷ [])
        × (N.more ≡ e ∷ []) × ((x : _) × (seat.old.me.0.opening ≡ Some x)
        × T.legal x (seat.old.me.0.seen ++ e ∷ []) × T.outcome x (seat.old.me.0.seen ++ e ∷ []) y) }
    ensures place { (seat.new.table_id ≡ seat.old.table_id) × (seat.new.id ≡ seat.old.id) }
    ensures ended { (seat.new.me ≡ (ending seat.old.me.0 N.more, [])) × (length seat.new.me.0.mine ≤ 2 ^ 62) }
    ensures order { RiseUpTo (length seat.new.me.0.seen) seat.new.me.0.mine }
{
    board.fetch_add::<End<N>>(seat, 1, 1);
    board.wake_all(1);
}

// Takes the value out of the slot.
pub(crate) fn take<T: Replayed>(board: &Board<T>, seat: &mut PassSeat<T>) -> T
    requires place { seat.old.table_id ≡ board.now.table_id }
    requires there { (x : T) × (seat.old.me.1 ≡ (0, Some x) ∷ []) }
    ensures place { (seat.new.table_id ≡ seat.old.table_id) × (seat.new.id ≡ seat.old.id) }
    ensures value { seat.old.me.1 ≡ (0, Some result) ∷ [] }
    ensures seat { seat.new.me ≡ (seat.old.me.0, (0, None) ∷ []) }
{
    board.exchange(seat, 0, None).unwrap()
}

// Puts the value into the slot.
pub(crate) fn put<T: Replayed>(board: &Board<T>, seat: &mut PassSeat<T>, value: T)
    requires place { seat.old.table_id ≡ board.now.table_id }
    requires gone { seat.old.me.1 ≡ (0, None) ∷ [] }
    ensures place { (seat.new.table_id ≡ seat.old.table_id) × (seat.new.id ≡ seat.old.id) }
    ensures seat { seat.new.me ≡ (seat.old.me.0, (0, Some value) ∷ []) }
{
    let empty = board.exchange(seat, 0, Some(value));
    let None = empty else { unreachable!() };
}

// The same as `end`, with the entry of an act.
pub(crate) fn end_as<T: Replayed, A: Act<T>, N: Added<T::Entry>>(
    board: &Board<T>,
    seat: &mut PassSeat<T>,
    _before: &Snapshot<A>,
    _reply: &A::Reply,
)
    requires place { (seat.old.table_id ≡ board.now.table_id) × (board.now.table_id.words ≡ 2) }
    requires entry { N.more ≡ A.entry _before.now.value _reply.now ∷ [] }
    requires turn { (y : _) × (seat.old.me.0.stage ≡ 2) × (seat.old.me.1 ≡ (0, Some y) ∷ []) × ((x : _)
        × (seat.old.me.0.opening ≡ Some x) × T.legal x
        (seat.old.me.0.seen ++ A.entry _before.now.value _reply.now ∷ [])
        × T.outcome x (seat.old.me.0.seen ++ A.entry _before.now.value _reply.now ∷ []) y) }
    ensures place { (seat.new.table_id ≡ seat.old.table_id) × (seat.new.id ≡ seat.old.id) }
    ensures ended { (seat.new.me ≡ (ending seat.old.me.0 (A.entry _before.now.value _reply.now ∷ []), []))
        × (length seat.new.me.0.mine ≤ 2 ^ 62) }
    ensures order { RiseUpTo (length seat.new.me.0.seen) seat.new.me.0.mine }
{
    end::<T, N>(board, seat);
}

// One turn, of a seat at rest.
pub(crate) fn play_turn<T: Replayed, A: Act<T>, R: Wait>(
    rt: &R,
    board: &Board<T>,
    seat: &mut PassSeat<T>,
    act: &mut A,
) -> (u64, A::Reply)
    requires place { (seat.old.table_id ≡ board.now.table_id) × (board.now.table_id.words ≡ 2) }
    requires rests { (seat.old.me.1 ≡ []) × (seat.old.me.0.stage ≡ 0) × (0 < seat.old.me.0.left) }
    requires may { (o : _) × (seat.old.me.0.opening ≡ Some o) × A.may act.old o seat.old.me.0.seen }
    ensures place { (seat.new.table_id ≡ seat.old.table_id) × (seat.new.id ≡ seat.old.id) }
    ensures turn { Turned T.legal (λ o h. A.told o h act.old act.new result.1)
        (A.entry act.old result.1) result.0 seat.old.me seat.new.me }
    ensures few { length seat.new.me.0.mine ≤ 2 ^ 62 }
    ensures order { RiseUpTo (length seat.new.me.0.seen) seat.new.me.0.mine }
{
    let ticket = draw(board, seat);
    await_turn(rt, board, seat, ticket);
    let mut value = take(board, seat);
    let before = Snapshot::of(&*act);
    let reply = act.play(&mut value, ticket + 1);
    put(board, seat, value);
    end_as::<T, A, Brand>(board, seat, &before, &reply);
    (ticket + 1, reply)
}

// Looks at the history, and stands still.
pub(crate) fn look<T: Replayed>(board: &Board<T>, seat: &mut PassSeat<T>)
    requires { (seat.old.table_id ≡ board.now.table_id) × (board.now.table_id.words ≡ 2) }
    ensures same { (seat.new.table_id ≡ seat.old.table_id) × (seat.new.id ≡ seat.old.id) × (seat.new.me ≡ seat.old.me) }
    ensures legal { (o : _) → seat.old.me.0.opening ≡ Some o → T.legal o seat.old.me.0.seen }
    ensures short { IsPrefix seat.old.me.0.shorter seat.old.me.0.seen }
    ensures order { RiseUpTo (length seat.old.me.0.seen) seat.old.me.0.mine }
    ensures few { (seat.old.me.0.left ≤ 2 ^ 62) × (length seat.old.me.0.mine ≤ 2 ^ 62) }
{
    board.load::<Look>(seat, 1);
}

// Cuts a number of turns off.
pub(crate) fn cut<T: Replayed, N: Parted>(
    board: &Board<T>,
    seat: &mut PassSeat<T>,
    _turns: u64,
) -> PassSeat<T>
    requires place { (seat.old.table_id ≡ board.now.table_id) × (board.now.table_id.words ≡ 2) }
    requires turns { (N.turns ≡ _turns) × (_turns ≤ seat.old.me.0.left) × (seat.old.me.0.stage ≡ 0) }
    ensures place { (seat.new.table_id ≡ seat.old.table_id) × (result.table_id ≡ seat.old.table_id) }
    ensures kept { seat.new.me ≡ (kept_part _turns seat.old.me.0, seat.old.me.1) }
    ensures given { result.me ≡ (given_part _turns seat.old.me.0, []) }
{
    board.split_seat::<Cut<N>>(seat)
}

// Takes another in, and looks.
pub(crate) fn glue<T: Replayed>(board: &Board<T>, seat: &mut PassSeat<T>, other: PassSeat<T>)
    requires place { (seat.old.table_id ≡ board.now.table_id) × (board.now.table_id.words ≡ 2)
        × (other.table_id ≡ board.now.table_id) }
    requires rest { (seat.old.me.0.stage ≡ 0) × (other.me.0.stage ≡ 0) × (other.me.1 ≡ []) }
    ensures place { seat.new.table_id ≡ seat.old.table_id }
    ensures both { seat.new.me ≡ (joined seat.old.me.0 other.me.0, seat.old.me.1) }
    ensures legal { (o : _) → seat.old.me.0.opening ≡ Some o → T.legal o seat.new.me.0.seen }
    ensures short { IsPrefix (shorter_of seat.old.me.0.seen other.me.0.seen)
        (longer seat.old.me.0.seen other.me.0.seen) }
    ensures order { RiseUpTo (length seat.new.me.0.seen) seat.new.me.0.mine }
    ensures rising { Rises 0 (merged seat.old.me.0.mine other.me.0.mine) }
    ensures few { (seat.old.me.0.left + other.me.0.left ≤ 2 ^ 62)
        × (length (merged seat.old.me.0.mine other.me.0.mine) ≤ 2 ^ 62) }
{
    board.join_seat::<Glue>(seat, other);
    look(board, seat);
}

/// The table.
pub type Desk<T> = Table<
    Option<T>,
    PassState<<T as Replayed>::Entry, <T as Replayed>::Opening>,
    Terms<T>,
    InTurn<T>,
    Global,
>;

// Takes the value from the table, whose turns the seat has used or has left.
pub(crate) fn end_all<T: Replayed>(table: Desk<T>, seat: PassSeat<T>) -> T
    requires place { (seat.table_id ≡ table.shared.table_id) × (table.shared.table_id.slots ≡ 1) }
    requires turns { seat.me.0.left + length seat.me.0.mine ≡ table.shared.key.turns }
    ensures outcome { T.outcome (T.opening table.shared.key.first.value) seat.me.0.seen result }
    ensures legal { T.legal (T.opening table.shared.key.first.value) seat.me.0.seen }
    ensures calls { (seat.me.0.mine ≡ places_after 0 (length seat.me.0.seen))
        × (length seat.me.0.mine ≡ length seat.me.0.seen) }
{
    let mut closed = table.close_with(seat);
    let slot = closed.take(0);
    closed.free();
    slot.unwrap()
}
