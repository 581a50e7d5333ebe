ghost use Rattle.std.specs.Prelude.{◌≡◌, ◌+◌, ◌-◌, ◌^◌, ℕ, None, Some, is_some, min};
ghost use Rattle.dev_traits.specs.Causes.{RoseBy};
ghost use Rattle.dev_traits.specs.View.{Told};
ghost use Rattle.pk_model.specs.declared.books.Book.{Book};
ghost use Rattle.pk_model.specs.declared.calls.Call.TheVariants as call;
ghost use Rattle.pk_model.specs.declared.calls.Reply.{Reply};
ghost use Rattle.pk_model.specs.declared.calls.Reply.TheVariants as reply;
ghost use Rattle.tablet_state.specs.Floors.{HoldsNeeded, floor_refusal, needed_segments, raised_contents};
ghost use Rattle.tablet_state.specs.State.{Has, Rests, StandsThroughout, Steps, faults_of};
ghost use Rattle.core_publish.specs.Replies.{TellsShut, shut_after, told_by_reply};
ghost use Rattle.core_compact.specs.Expiring.{IsExpiry, IsRaise};

use dev_traits::{SealedReader, Store};
use pk_model::Reply;
use std::alloc::Global;
use tablet_state::State;

/// Drops the versions below `v`, in a turn at the place `seq` of the history: raises the floor, and forgets the files
/// that no kept version and no compaction under way names. Where the floor is as high already it calls no device. Each
/// version that is kept stays as it was, and so does each snapshot in hand. It takes all memory before it writes.
///
/// The answer is
/// - `Closed` exactly where the state is closed, with the place of the turn that closed it;
/// - `NotYet` exactly where the state is open and `v` is above its current version, which it tells;
/// - `Floor` with the floor as it is, where that is at least `v` and neither is so;
/// - `Worn` where none of these is so and a number of the state's has come to its end;
/// - `Memory` where memory is wanted;
/// - `StoreFault` where the store failed, with the number of its faults, and then the state is closed;
/// - else `Floor` with `v`.
pub fn expire<S: Store>(alloc: Global, state: &mut State<S>, v: u64, seq: u64) -> Reply
    // Where the state has a book, this is a step of it, and the state has the book that is left.
    ensures turn { (b : Book) → Has S.view state.old b → Steps S.view state.new b seq (call.Expire v) result }

    // Every image that a crash in it might have left stands for the book before it or for the one after.
    ensures any_moment { (b : Book) → Has S.view state.old b → state.old.closed ≡ None
        → StandsThroughout state.old.contents.schema b seq (call.Expire v) (S.view state.old.store)
        (S.view state.new.store) }

    ensures only { IsExpiry result }
    ensures tells { TellsShut state.old.closed result }
    ensures shut { state.new.closed ≡ shut_after state.old.closed seq result }

    // A refusal comes before all else, and leaves the state.
    ensures refused { (r : Reply) → floor_refusal state.old v ≡ Some r → (result ≡ r) × (state.new ≡ state.old) }
    ensures raised { floor_refusal state.old v ≡ None → IsRaise v result }

    // Over every store, the versions below the floor are gone then and nothing else, and a store that tells has just the
    // files that a kept version or the compaction under way names, each as it was.
    ensures floor { floor_refusal state.old v ≡ None → result ≡ reply.Floor v
        → state.new.contents ≡ raised_contents v state.old.contents }
    ensures forgot { floor_refusal state.old v ≡ None → result ≡ reply.Floor v
        → Told (S.view state.old.store) (λ before. Told (S.view state.new.store)
        (HoldsNeeded state.new.contents before)) }
    ensures segments { floor_refusal state.old v ≡ None → result ≡ reply.Floor v
        → state.new.segments ≡ needed_segments state.new.contents state.old.segments }
    ensures memory { result ≡ reply.Memory → Rests S.view state.old state.new }
    ensures same { (n : ℕ) → result ≡ reply.StoreFault n
        → (state.new.contents ≡ state.old.contents) × (state.new.segments ≡ state.old.segments) }

    ensures number { (n : ℕ) → result ≡ reply.StoreFault n → n ≡ faults_of S.view state.new }
    ensures counted { faults_of S.view state.new
        ≡ min (faults_of S.view state.old + told_by_reply result) (2 ^ 64 - 1) }
    ensures faults { RoseBy (told_by_reply result) (faults_of S.view state.old) (faults_of S.view state.new) }

    // An honest store stays honest, and one that tells still tells, also where it failed.
    ensures honest { (S.view state.new.store).is_honest ≡ (S.view state.old.store).is_honest }
    ensures told { is_some (S.view state.new.store).seen ≡ is_some (S.view state.old.store).seen }
{
    if let Some(refusal) = state.refuses_floor(v) {
        return refusal;
    }
    match state.ready_floor(alloc, v) {
        Ok(ready) => match state.apply_floor(ready, seq) {
            Ok(()) => Reply::Floor(v),
            Err(fault) => fault,
        },
        Err(_) => Reply::Memory,
    }
}
