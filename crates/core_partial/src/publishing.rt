ghost use Rattle.std.specs.Prelude.{◌≡◌, ◌+◌, ◌-◌, ◌^◌, ◌≤◌, ◌++◌, ℕ, List, Some, None, false, true, length, min, is_some};
ghost use Rattle.std.specs.List.{AllByRecursion};
ghost use Rattle.dev_traits.specs.Causes.{RoseBy};
ghost use Rattle.dev_traits.specs.declared.faults.Damaged.{Damaged};
ghost use Rattle.pk_model.specs.declared.books.Book.{Book};
ghost use Rattle.pk_model.specs.declared.calls.Call.TheVariants as call;
ghost use Rattle.pk_model.specs.declared.calls.Reply.{Reply};
ghost use Rattle.pk_model.specs.declared.calls.Reply.TheVariants as reply;
ghost use Rattle.tablet_state.specs.Contents.{current_number, worn_of};
ghost use Rattle.tablet_state.specs.Snapshots.{Lends};
ghost use Rattle.tablet_state.specs.State.{Has, Rests, StandsThroughout, Steps, faults_of, reads_of, refusal_of};
ghost use Rattle.core_publish.specs.Replies.{TellsShut, shut_after, told_by_reply};
ghost use Rattle.core_publish.specs.Publishing.{IsPublishing, index_damage, published_in, uses_up};
ghost use Rattle.core_partial.specs.Moving.{IsOver, IsRemade, moved_keys};
ghost use Rattle.core_partial.specs.Prepared.{WasLocatedIn};
ghost use Rattle.core_partial.specs.Publishing.{IsFinished, IsHeldWith, IsPublishDamage, IsWrongFor, ReadsAtMost, closes_by, emptied, reply_to};

use crate::PreparedPartial;
use crate::again::again_of;
use crate::prepared::Again;
use crate::ready::{UnreadyFault, ready_of};
use dev_traits::{Damaged, FileMaker, Part, ReadFault, SealedReader, Shown, Store};
use pk_model::Reply;
use std::alloc::Global;
use tablet_state::State;

// A fault closes the state and uses the load up, but for want of memory.
fn fail<S: Store>(
    alloc: Global,
    state: &mut State<S>,
    prepared: &mut PreparedPartial<S::Maker>,
    fault: ReadFault,
    seq: u64,
) -> Reply
    requires open { state.old.closed ≡ None }
    ensures reply { result ≡ reply_to fault (faults_of S.view state.old) }
    ensures state { state.new ≡ record state.old { closed = shut_after None seq result } }
    ensures has { (b : Book) → Has S.view state.old b → closes_by fault ≡ true
        → Has S.view state.new (record b { closed = Some seq }) }
    ensures kept { closes_by fault ≡ false → prepared.new ≡ prepared.old }
    ensures spent { closes_by fault ≡ true → prepared.new ≡ emptied prepared.old }
{
    let reply = match fault {
        ReadFault::Memory => return Reply::Memory,
        ReadFault::StoreFault => Reply::StoreFault(state.faults()),
        ReadFault::Damaged(damaged) => Reply::Damaged(damaged),
    };
    prepared.use_up(alloc);
    state.close_at(seq);
    reply
}

// Publishes a load whose moved keys were made again.
fn finish<S: Store>(
    alloc: Global,
    state: &mut State<S>,
    prepared: &mut PreparedPartial<S::Maker>,
    again: Again<S::Maker>,
    seq: u64,
) -> Reply
    requires goes { refusal_of state.old ≡ None }
    requires unspent { prepared.old.spent ≡ false }
    requires schema { prepared.old.schema ≡ state.old.contents.schema }
    requires again { IsRemade state.old.contents state.old.segments prepared.old again }
    ensures turn { (b : Book) → Has S.view state.old b
        → IsOver state.old.contents b prepared.old again
        → Steps S.view state.new b seq (call.Load prepared.old.load) result }
    ensures any_moment { (b : Book) → Has S.view state.old b
        → IsOver state.old.contents b prepared.old again → state.old.closed ≡ None
        → StandsThroughout state.old.contents.schema b seq (call.Load prepared.old.load) (S.view state.old.store)
        (S.view state.new.store) }
    ensures only { IsFinished result }
    ensures damaged { (d : Damaged) → result ≡ reply.Damaged d
        → (d ≡ index_damage) × IsWrongFor state.old.contents state.old.segments prepared.old }
    ensures intact { (b : Book) → Has S.view state.old b
        → IsOver state.old.contents b prepared.old again → (d : Damaged)
        → result ≡ reply.Damaged d → ⊥ }
    ensures shut { state.new.closed ≡ shut_after None seq result }
    ensures memory { result ≡ reply.Memory → Rests S.view state.old state.new }
    ensures contents { state.new.contents.schema ≡ state.old.contents.schema }
    ensures published { (v : ℕ) → result ≡ reply.Published v
        → (v ≡ current_number state.old.contents + 1) × (current_number state.new.contents ≡ v) }
    ensures held { (v : ℕ) → result ≡ reply.Published v
        → IsHeldWith state.old.contents state.old.segments prepared.old state.new.contents }
    ensures same { published_in result ≡ None → state.new.contents ≡ state.old.contents }
    ensures number { (n : ℕ) → result ≡ reply.StoreFault n → n ≡ faults_of S.view state.new }
    ensures counted { faults_of S.view state.new
        ≡ min (faults_of S.view state.old + told_by_reply result) (2 ^ 64 - 1) }
    ensures reads { (more : List (ℕ × ℕ)) × (reads_of state.new.segments ≡ reads_of state.old.segments ++ more)
        × AllByRecursion (λ p. p.1 ≡ 0) more }
    ensures honest { (S.view state.new.store).is_honest ≡ (S.view state.old.store).is_honest }
    ensures told { is_some (S.view state.new.store).seen ≡ is_some (S.view state.old.store).seen }
    ensures spent { prepared.new.spent ≡ uses_up result }
    ensures kept { uses_up result ≡ false → prepared.new ≡ prepared.old }
{
    match ready_of(alloc, state, prepared, again) {
        Ok(ready) => match state.apply(ready, seq) {
            Ok(version) => Reply::Published(version),
            Err(fault) => fault,
        },
        Err(UnreadyFault::Memory) => Reply::Memory,
        Err(UnreadyFault::Index) => {
            state.close_at(seq);
            Reply::Damaged(Damaged {
                file: 0,
                part: Part::Area(2),
                shown: Shown::Form,
            })
        }
    }
}

/// Publishes a prepared partial load in a turn at the place `seq` of the history. It first makes the rows of the keys
/// that moved since the load was located again, as `settle` does, whatever an earlier `settle` made; then the rows of its
/// files, but for the superseded ones, take the place of those that its keys have, and the answer tells the number of the
/// version that it made. It takes all memory before it writes to the store. After `Published`, `StoreFault` and `Damaged`
/// the load is spent; after any other answer it is as it was, and can be published later.
///
/// The answer is
/// - `Closed` exactly where the state is closed, with the place of the turn that closed it;
/// - `Worn` exactly where the state is open and a number of its has come to its end;
/// - `ManyVersions` exactly where neither is so and 1,000 versions are kept;
/// - `Memory` where memory is wanted;
/// - `StoreFault` where the store, its maker or a reader failed, with the number of faults, and then the state is closed;
/// - `Damaged` where a block that was read is damaged, or the index names one row for two keys, a row that isn't a live
///   one, or another key's, and then the state is closed. It never is where the state has a book;
/// - else `Published`.
pub fn publish_partial<S: Store>(
    alloc: Global,
    state: &mut State<S>,
    prepared: &mut PreparedPartial<S::Maker>,
    seq: u64,
) -> Reply
    requires unspent { prepared.old.spent ≡ false }
    requires schema { prepared.old.schema ≡ state.old.contents.schema }

    // Where the state has a book, and the load was made over the rows of the version at which it was located as far as the
    // book keeps it, this is a step of the book, and the state has the book that is left.
    ensures turn { (b : Book) → Has S.view state.old b → WasLocatedIn b prepared.old
        → Steps S.view state.new b seq (call.Load prepared.old.load) result }

    // Every image that a crash in it might have left stands for the book before it or for the one after.
    ensures any_moment { (b : Book) → Has S.view state.old b → WasLocatedIn b prepared.old → state.old.closed ≡ None
        → StandsThroughout state.old.contents.schema b seq (call.Load prepared.old.load) (S.view state.old.store)
        (S.view state.new.store) }

    ensures only { IsPublishing result }
    // Damage is that of the index or of a block that was read, and a state that has a book meets none.
    ensures damaged { (d : Damaged) → result ≡ reply.Damaged d
        → IsPublishDamage state.old.contents state.old.segments prepared.old d }
    ensures intact { (b : Book) → Has S.view state.old b → WasLocatedIn b prepared.old → (d : Damaged) → result ≡ reply.Damaged d → ⊥ }
    ensures tells { TellsShut state.old.closed result }
    ensures shut { state.new.closed ≡ shut_after state.old.closed seq result }

    // A refusal comes before all else, and leaves the state.
    ensures refused { (r : Reply) → refusal_of state.old ≡ Some r → (result ≡ r) × (state.new ≡ state.old) }
    ensures closed { (p : ℕ) → state.old.closed ≡ Some p → state.new ≡ state.old }
    ensures worn { (n : ℕ) → result ≡ reply.Worn n
        → (worn_of state.old.contents ≡ Some n) × (state.new ≡ state.old) }
    ensures stays_worn { (n : ℕ) → state.old.closed ≡ None → worn_of state.old.contents ≡ Some n
        → result ≡ reply.Worn n }
    ensures many { result ≡ reply.ManyVersions → refusal_of state.old ≡ Some reply.ManyVersions }

    // After want of memory what the state holds is as it was, but that readers may have been read.
    ensures memory { result ≡ reply.Memory → Lends S.view state.old state.new }

    ensures contents { state.new.contents.schema ≡ state.old.contents.schema }
    ensures published { (v : ℕ) → result ≡ reply.Published v
        → (v ≡ current_number state.old.contents + 1) × (current_number state.new.contents ≡ v) }

    // Over every store, the load's files, and files of rows made again of exactly the keys that moved, of the rows that
    // stand at their places now, make the version.
    ensures held { (v : ℕ) → result ≡ reply.Published v
        → IsHeldWith state.old.contents state.old.segments prepared.old state.new.contents }
    ensures same { published_in result ≡ None → state.new.contents ≡ state.old.contents }
    ensures number { (n : ℕ) → result ≡ reply.StoreFault n → n ≡ faults_of S.view state.new }
    ensures counted { faults_of S.view state.new
        ≡ min (faults_of S.view state.old + told_by_reply result) (2 ^ 64 - 1) }
    ensures faults { RoseBy (told_by_reply result) (faults_of S.view state.old) (faults_of S.view state.new) }

    // The segment readers are read at most once for each key that moved, all together; those of new files are new.
    ensures reads { ReadsAtMost (length (moved_keys state.old.contents prepared.old.version prepared.old.keys))
        state.old.segments state.new.segments }

    // An honest store stays honest, and one that tells still tells, also where it failed.
    ensures honest { (S.view state.new.store).is_honest ≡ (S.view state.old.store).is_honest }
    ensures told { is_some (S.view state.new.store).seen ≡ is_some (S.view state.old.store).seen }

    ensures spent { prepared.new.spent ≡ uses_up result }
    ensures kept { uses_up result ≡ false → prepared.new ≡ prepared.old }
{
    if let Some(refusal) = state.refuses_load() {
        return refusal;
    }
    match again_of(alloc, state, prepared) {
        Ok(again) => finish(alloc, state, prepared, again, seq),
        Err(fault) => fail(alloc, state, prepared, fault, seq),
    }
}
