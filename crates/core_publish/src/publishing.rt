ghost use Rattle.std.specs.Prelude.{◌≡◌, ◌+◌, ◌-◌, ◌^◌, ◌++◌, ℕ, List, Some, None, false, true, min, is_some};
ghost use Rattle.std.specs.List.{AllByRecursion};
ghost use Rattle.dev_traits.specs.Causes.{RoseBy};
ghost use Rattle.dev_traits.specs.declared.faults.Damaged.{Damaged};
ghost use Rattle.pk_model.specs.declared.books.Book.{Book};
ghost use Rattle.pk_model.specs.declared.calls.Call.TheVariants as call;
ghost use Rattle.pk_model.specs.declared.calls.Reply.{Reply};
ghost use Rattle.pk_model.specs.declared.calls.Reply.TheVariants as reply;
ghost use Rattle.tablet_state.specs.Contents.{current_number, worn_of};
ghost use Rattle.tablet_state.specs.State.{Has, Rests, StandsThroughout, Steps, faults_of, reads_of, refusal_of};
ghost use Rattle.core_publish.specs.Replies.{TellsShut, shut_after, told_by_reply};
ghost use Rattle.core_publish.specs.Publishing.{IsHeldNext, IsPublishing, IsWrongIndex, index_damage, published_in, uses_up};

use crate::Prepared;
use crate::ready::{UnreadyFault, ready_of};
use dev_traits::{Damaged, FileMaker, Part, Shown, Store};
use pk_model::Reply;
use std::alloc::Global;
use tablet_state::State;

/// Publishes a prepared load in a turn at the place `seq` of the history: the rows of its files take the place of those
/// that its keys have, and the answer tells the number of the version that it made. It looks up each key of the load
/// once, in the index, and takes all memory before it writes. After `Published`, `StoreFault` and `Damaged` the load is
/// spent; after any other answer it is as it was, and can be published later.
///
/// The answer is
/// - `Closed` exactly where the state is closed, with the place of the turn that closed it;
/// - `Worn` exactly where the state is open and a number of its has come to its end;
/// - `ManyVersions` exactly where neither is so and 1,000 versions are kept;
/// - `Memory` where memory is wanted;
/// - `StoreFault` where the store failed, with the number of its faults, and then the state is closed;
/// - `Damaged` where the index names one row for two keys, or a row that isn't a live one, and then the state is
///   closed. It never is where the state has a book;
/// - else `Published`.
pub fn publish<S: Store>(
    alloc: Global,
    state: &mut State<S>,
    prepared: &mut Prepared<S::Maker>,
    seq: u64,
) -> Reply
    requires unspent { prepared.old.spent ≡ false }
    requires schema { prepared.old.schema ≡ state.old.contents.schema }

    // Where the state has a book, this is a step of it, and the state has the book that is left.
    ensures turn { (b : Book) → Has S.view state.old b
        → Steps S.view state.new b seq (call.Load prepared.old.load) result }

    // Every image that a crash in it might have left stands for the book before it or for the one after.
    ensures any_moment { (b : Book) → Has S.view state.old b → state.old.closed ≡ None
        → StandsThroughout state.old.contents.schema b seq (call.Load prepared.old.load) (S.view state.old.store)
        (S.view state.new.store) }

    ensures only { IsPublishing result }
    // Damage is that of the index, and a state that has a book meets none.
    ensures damaged { (d : Damaged) → result ≡ reply.Damaged d
        → (d ≡ index_damage) × IsWrongIndex state.old.contents prepared.old.entries }
    ensures intact { (b : Book) → Has S.view state.old b → (d : Damaged) → result ≡ reply.Damaged d → ⊥ }
    ensures tells { TellsShut state.old.closed result }
    ensures shut { state.new.closed ≡ shut_after state.old.closed seq result }

    // A refusal comes before all else, and leaves the state.
    ensures refused { (r : Reply) → refusal_of state.old ≡ Some r → (result ≡ r) × (state.new ≡ state.old) }
    ensures closed { (p : ℕ) → state.old.closed ≡ Some p → state.new ≡ state.old }
    ensures worn { (n : ℕ) → result ≡ reply.Worn n
        → (worn_of state.old.contents ≡ Some n) × (state.new ≡ state.old) }
    ensures stays_worn { (n : ℕ) → state.old.closed ≡ None → worn_of state.old.contents ≡ Some n
        → result ≡ reply.Worn n }
    ensures many { result ≡ reply.ManyVersions → refusal_of state.old ≡ Some reply.ManyVersions }
    ensures memory { result ≡ reply.Memory → Rests S.view state.old state.new }

    ensures contents { state.new.contents.schema ≡ state.old.contents.schema }
    ensures published { (v : ℕ) → result ≡ reply.Published v
        → (v ≡ current_number state.old.contents + 1) × (current_number state.new.contents ≡ v) }

    // Over every store, the load's files and entries, and no others, make the version that it answers.
    ensures held { (v : ℕ) → result ≡ reply.Published v
        → IsHeldNext state.old.contents prepared.old.files prepared.old.entries state.new.contents }
    ensures same { published_in result ≡ None → state.new.contents ≡ state.old.contents }
    ensures number { (n : ℕ) → result ≡ reply.StoreFault n → n ≡ faults_of S.view state.new }
    ensures counted { faults_of S.view state.new
        ≡ min (faults_of S.view state.old + told_by_reply result) (2 ^ 64 - 1) }
    ensures faults { RoseBy (told_by_reply result) (faults_of S.view state.old) (faults_of S.view state.new) }

    // No segment's reader reads, and those of new files have read nothing.
    ensures reads { (more : List (ℕ × ℕ)) × (reads_of state.new.segments ≡ reads_of state.old.segments ++ more)
        × AllByRecursion (λ p. p.1 ≡ 0) more }

    // An honest store stays honest, and one that tells still tells, also where it failed.
    ensures honest { (S.view state.new.store).is_honest ≡ (S.view state.old.store).is_honest }
    ensures told { is_some (S.view state.new.store).seen ≡ is_some (S.view state.old.store).seen }

    ensures spent { prepared.new.spent ≡ uses_up result }
    ensures kept { uses_up result ≡ false → prepared.new ≡ prepared.old }
{
    if let Some(refusal) = state.refuses_load() {
        return refusal;
    }
    match ready_of(alloc, state, prepared) {
        Ok(ready) => match state.apply(ready, seq) {
            Ok(version) => Reply::Published(version),
            Err(fault) => fault,
        },
        Err(UnreadyFault::Memory) => Reply::Memory,
        Err(UnreadyFault::Index) => {
            state.close_at(seq);
            Reply::Damaged(Damaged {
                file: 0,
                part: Part::Area(2),
                shown: Shown::Form,
            })
        }
    }
}
