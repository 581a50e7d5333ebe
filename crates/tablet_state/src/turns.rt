ghost use Rattle.std.specs.Prelude.{◌≡◌, ◌+◌, ◌-◌, ◌^◌, ◌<◌, ◌≤◌, ◌++◌, ◌∷◌, [], ℕ, List, Option, None, Some, true, is_some, map, min, vec_len, length, OnOk, OnErr, IfOk, IfErr, IfSome};
ghost use Rattle.std.specs.List.{AllByRecursion};
ghost use Rattle.dev_traits.specs.View.{Calm};
ghost use Rattle.pk_model.specs.declared.books.Book.{Book};
ghost use Rattle.pk_model.specs.declared.calls.Call.TheVariants as call;
ghost use Rattle.pk_model.specs.declared.calls.Load.{Load};
ghost use Rattle.pk_model.specs.declared.calls.Reply.TheVariants as reply;
ghost use Rattle.kept_versions.specs.Files.{PlacesRise};
ghost use Rattle.tablet_state.specs.Contents.{current_number, index_of, worn_of};
ghost use Rattle.tablet_state.specs.State.{Has, StandsThroughout, Steps, faults_of, reads_of, refusal_of, applied};
ghost use Rattle.tablet_state.specs.Readies.{IsChangeOf, IsMade, next_contents};

use crate::adopting::commit;
use crate::{Change, Ready, State};
use dev_traits::{FileMaker, SealedReader, Store};
use pk_model::Reply;

/// Numbers are used up to this one.
const WORN: u64 = 1 << 62;

/// The most versions that are kept.
const MOST_VERSIONS: usize = 1000;

impl<S: Store> State<S> {
    /// Why a load is refused before it is looked at: the state is closed, then a number that has come to its end, then
    /// as many versions as may be. None where it isn't.
    pub fn refuses_load(&self) -> Option<Reply>
        ensures refused { result ≡ refusal_of self.now }

        // Such a reply is a step of the book that the state has.
        ensures step { IfSome result (λ r. (b : Book) (seq : ℕ) (load : Load) → Has S.view self.now b
            → Steps S.view self.now b seq (call.Load load) r) }
    {
        match self.closed {
            Some(place) => return Some(Reply::Closed(place)),
            None => {}
        }
        match self.worn() {
            Some(number) => return Some(Reply::Worn(number)),
            None => {}
        }
        if self.older.len() + 1 == MOST_VERSIONS {
            return Some(Reply::ManyVersions);
        }
        None
    }

    /// A number that has come to its end, 2^62 or more: of the next file, of the last edit or of the current version.
    pub fn worn(&self) -> Option<u64>
        ensures { result ≡ worn_of self.now.contents }
    {
        if self.next_file >= WORN {
            return Some(self.next_file);
        }
        if self.edit >= WORN {
            return Some(self.edit);
        }
        let version = self.version();
        if version >= WORN {
            return Some(version);
        }
        None
    }

    /// Closes the state at the place of a turn that met damage.
    pub fn close_at(&mut self, place: u64)
        requires open { self.old.closed ≡ None }
        ensures closed { self.new ≡ record self.old { closed = Some place } }
        ensures has { (b : Book) → Has S.view self.old b → Has S.view self.new (record b { closed = Some place }) }
    {
        self.closed = Some(place);
    }

    /// Publishes what is ready, and tells the number of the version that it made. It takes no memory.
    ///
    /// # Errors
    /// `StoreFault` with the number of faults, and then the state is closed at this place.
    pub fn apply(&mut self, ready: Ready<S::Maker>, seq: u64) -> Result<u64, Reply>
        requires open { self.old.closed ≡ None }
        requires made { IsMade (S.view self.old.store) self.old.contents self.old.room
            (map (λ m. (S.Maker.sealed_bytes m.sealed, m.footer)) ready.change.files.items) ready.change.dead.items ready.change.index.items ready.body ready.current }

        // Where the change is a load's over the book that the state has, it is that load's turn.
        ensures turn { (b : Book) (load : Load) → Has S.view self.old b
            → IsChangeOf self.old.contents.schema (index_of self.old.contents) b load self.old.contents.next_file
            (map (λ m. (S.Maker.sealed_bytes m.sealed, m.footer)) ready.change.files.items) ready.change.dead.items ready.change.index.items
            → Steps S.view self.new b seq (call.Load load) (applied result) }

        // Every image that a crash in it might have left stands for the book before it or for the one after.
        ensures any_moment { (b : Book) (load : Load) → Has S.view self.old b
            → IsChangeOf self.old.contents.schema (index_of self.old.contents) b load self.old.contents.next_file
            (map (λ m. (S.Maker.sealed_bytes m.sealed, m.footer)) ready.change.files.items) ready.change.dead.items ready.change.index.items
            → StandsThroughout self.old.contents.schema b seq (call.Load load) (S.view self.old.store)
            (S.view self.new.store) }

        ensures version { IfOk result (λ v. v ≡ current_number self.old.contents + 1) }
        ensures only { IfErr result (λ r. r ≡ reply.StoreFault (faults_of S.view self.new)) }
        ensures counted { OnErr result (faults_of S.view self.new ≡ min (faults_of S.view self.old + 1) (2 ^ 64 - 1)) }
        ensures unfailed { OnOk result (faults_of S.view self.new ≡ faults_of S.view self.old) }
        ensures open { OnOk result (self.new.closed ≡ None) }
        ensures closed { OnErr result (self.new.closed ≡ Some seq) }
        ensures next { OnOk result (self.new.contents ≡ next_contents (vec_len ready.change.files) ready.current ready.change.index.items self.old.contents) }
        ensures same { OnErr result (self.new.contents ≡ self.old.contents) }

        // No segment's reader reads, and those of new files have read nothing.
        ensures reads { (more : List (ℕ × ℕ)) × (reads_of self.new.segments ≡ reads_of self.old.segments ++ more)
            × AllByRecursion (λ p. p.1 ≡ 0) more }

        // An honest store stays honest, and one that tells still tells, also where it failed.
        ensures honest { (S.view self.new.store).is_honest ≡ (S.view self.old.store).is_honest }
        ensures tells { is_some (S.view self.new.store).seen ≡ is_some (S.view self.old.store).seen }
    {
        let Ready {
            change,
            current,
            body,
        } = ready;
        let Change {
            files,
            dead: _,
            index,
        } = change;
        let count = files.len() as u64;
        let committed = commit(
            &mut self.store,
            &mut self.segments,
            self.next_file,
            files,
            &mut self.log,
            &body,
        );
        match committed {
            Ok(()) => {
                let last = std::mem::replace(&mut self.current, current);
                self.older.push_reserved(last);
                self.index.put_all(index);
                self.next_file += count;
                self.edit += 1;
                Ok(self.floor + self.older.len() as u64)
            }
            Err(_) => {
                self.closed = Some(seq);
                Err(Reply::StoreFault(self.faults()))
            }
        }
    }
}
