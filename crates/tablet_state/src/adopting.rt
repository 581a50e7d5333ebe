ghost use Rattle.std.specs.Prelude.{◌≡◌, ◌+◌, ◌-◌, ◌++◌, ◌∷◌, [], ◌^◌, ◌≤◌, ℕ, List, length, map, vec_len, vec_capacity, OnOk, IfErr};
ghost use Rattle.dev_traits.specs.Causes.{HasCause};
ghost use Rattle.dev_traits.specs.Image.{Same};
ghost use Rattle.dev_traits.specs.View.{Told, EachImage, Leaves, Spends};
ghost use Rattle.tablet_state.specs.Adopting.{AllJoined, Commits, HasFiles, Joined, SameAreas, TellsLog};
ghost use Rattle.tablet_state.specs.Readies.{bytes_of};
ghost use Rattle.gated_log.specs.Log.{IsReady, IsSettled};
ghost use Rattle.tablet_state.specs.State.{IsFree};
ghost use Rattle.tablet_state.specs.Seen.{segments_of};

use dev_traits::{Failed, FileMaker, Store};
use gated_log::{Framed, Log, LogFault, append};
use segment_read::Segment;
use segment_write::Made;

// Adopts files under rising numbers, each into a segment of its own.
pub(crate) fn adopt_all<S: Store>(
    store: &mut S,
    segments: &mut Vec<Segment<S::Reader>>,
    first: u64,
    files: Vec<Made<S::Maker>>,
) -> Result<(), Failed>
    requires calls { vec_len files ≤ (S.view store.old).spare_calls }
    requires room { vec_len segments.old + vec_len files ≤ vec_capacity segments.old }
    requires fits { first + vec_len files ≤ 2 ^ 63 }
    requires free { Told (S.view store.old) (IsFree first) }
    ensures there { OnOk result (EachImage (S.view store.new)
        (HasFiles first (bytes_of (map (λ m. (S.Maker.sealed_bytes m.sealed, m.footer)) files.items)))) }
    ensures free { OnOk result (Told (S.view store.new) (IsFree (first + vec_len files))) }
    ensures areas { OnOk result (SameAreas (S.view store.old) (S.view store.new)) }
    ensures joined { Joined first (map (λ m. (S.Maker.sealed_bytes m.sealed, m.footer)) files.items)
        (segments_of S.Reader.view segments.old.items) (segments_of S.Reader.view segments.new.items) }
    ensures all_joined { OnOk result (AllJoined first (map (λ m. (S.Maker.sealed_bytes m.sealed, m.footer)) files.items)
        (segments_of S.Reader.view segments.old.items) (segments_of S.Reader.view segments.new.items)) }
    ensures spends { Spends (vec_len files) 0 (S.view store.old) (S.view store.new) }
    ensures crash { Leaves Same (S.view store.old) (S.view store.new) }
    ensures cause { HasCause (S.view store.old).faults (S.view store.new).faults result }
{
    let mut number = first;
    for file in files {
        let Made { sealed, footer } = file;
        let reader = store.adopt(number, sealed)?;
        segments.push_reserved(Segment {
            number,
            reader,
            footer,
        });
        number += 1;
    }
    Ok(())
}

// Adopts files, and then appends a record to a journal. A crash may then leave the journal with the
// record or without.
pub(crate) fn commit<S: Store>(
    store: &mut S,
    segments: &mut Vec<Segment<S::Reader>>,
    first: u64,
    files: Vec<Made<S::Maker>>,
    log: &mut Log,
    body: &Framed,
) -> Result<(), LogFault>
    requires calls { vec_len files + 4 ≤ (S.view store.old).spare_calls }
    requires bytes { length body.now + 10 ≤ (S.view store.old).spare_bytes }
    requires room { vec_len segments.old + vec_len files ≤ vec_capacity segments.old }
    requires fits { first + vec_len files ≤ 2 ^ 63 }
    requires free { Told (S.view store.old) (IsFree first) }
    requires log { TellsLog log.old.area log.old.end (S.view store.old) }
    requires ready { IsReady log.old.area log.old.end (S.view store.old) }

    // At every moment the journal has the record or not, and where it has it the files are there.
    ensures any_moment { (bodies : List (List ℕ)) → IsSettled log.old.area bodies log.old.end (S.view store.old)
        → Leaves (Commits log.old.area bodies body.now first (bytes_of (map (λ m. (S.Maker.sealed_bytes m.sealed, m.footer)) files.items))) (S.view store.old) (S.view store.new) }

    ensures settled { OnOk result ((bodies : List (List ℕ))
        → IsSettled log.old.area bodies log.old.end (S.view store.old)
        → IsSettled log.new.area (bodies ++ body.now ∷ []) log.new.end (S.view store.new)) }

    ensures there { OnOk result ((bodies : List (List ℕ)) → IsSettled log.old.area bodies log.old.end (S.view store.old)
        → EachImage (S.view store.new)
        (HasFiles first (bytes_of (map (λ m. (S.Maker.sealed_bytes m.sealed, m.footer)) files.items)))) }
    ensures joined { Joined first (map (λ m. (S.Maker.sealed_bytes m.sealed, m.footer)) files.items)
        (segments_of S.Reader.view segments.old.items) (segments_of S.Reader.view segments.new.items) }
    ensures all_joined { OnOk result (AllJoined first (map (λ m. (S.Maker.sealed_bytes m.sealed, m.footer)) files.items)
        (segments_of S.Reader.view segments.old.items) (segments_of S.Reader.view segments.new.items)) }
    ensures area { log.new.area ≡ log.old.area }
    ensures log { OnOk result (TellsLog log.new.area log.new.end (S.view store.new)) }
    ensures ready { OnOk result (IsReady log.new.area log.new.end (S.view store.new)) }
    ensures free { OnOk result (Told (S.view store.new) (IsFree (first + vec_len files))) }
    ensures spends { Spends (vec_len files + 4) (length body.now + 10) (S.view store.old) (S.view store.new) }
    ensures only { IfErr result (λ e. e ≡ LogFault.StoreFault) }
    ensures cause { HasCause (S.view store.old).faults (S.view store.new).faults result }
{
    adopt_all(store, segments, first, files)?;
    append(store, log, body)?;
    Ok(())
}
