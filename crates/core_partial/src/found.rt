ghost use Rattle.std.specs.Prelude.{◌≡◌, ◌-◌, ◌^◌, min};
ghost use Rattle.dev_traits.specs.Causes.{Counts};
ghost use Rattle.dev_traits.specs.View.{Calm};
ghost use Rattle.snapshot_scan.specs.Snapshots.{fault_count};
ghost use Rattle.core_partial.specs.Found.{IsLocated};

use dev_traits::{SealedReader, Store};
use index_level0::{KeyBytes, Place};
use pk_model::Load;
use snapshot_scan::{Snapshot, give_back_snapshot};
use std::marker::Model;
use std::snapshot;

/// A partial load that was located: a snapshot of the version at which it was, and for each of its keys the place of its
/// row there. Contracts also see the load, which takes no memory here.
#[derive(Drop)]
pub struct Found<R: SealedReader> {
    pub(crate) load: snapshot::Snapshot<Load>,
    pub(crate) snapshot: Snapshot<R>,
    pub(crate) entries: Vec<(KeyBytes, Option<Place>)>,
}

impl<R: SealedReader> Model for Found<R> {
    ghost use Rattle.core_partial.specs.Found.{FoundView, IsLocated};

    ghost Value = { FoundView };

    ghost view = { λ f. record { load = f.load.value; snapshot = f.snapshot; located = f.entries.items } };

    ghost invariant = { λ f. IsLocated f.snapshot.schema f.load.value f.entries.items };
}

impl<R: SealedReader> Found<R> {
    // Of a load, a snapshot, and the places of the load's keys there.
    pub(crate) fn of(
        load: &Load,
        snapshot: Snapshot<R>,
        entries: Vec<(KeyBytes, Option<Place>)>,
    ) -> Found<R>
        requires { IsLocated snapshot.schema load.now entries.items }
        ensures load { result.load ≡ load.now }
        ensures snapshot { result.snapshot ≡ snapshot }
        ensures located { result.located ≡ entries.items }
    {
        Found {
            load: snapshot::Snapshot::of(load),
            snapshot,
            entries,
        }
    }

    /// The version at which the load was located.
    pub fn version(&self) -> u64
        ensures { result ≡ self.now.snapshot.version }
    {
        self.snapshot.version()
    }

    /// How often its readers have failed, at most the last u64.
    pub fn faults(&self) -> u64
        ensures { result ≡ min (fault_count self.now.snapshot.parts) (2 ^ 64 - 1) }
    {
        self.snapshot.faults()
    }

    /// Its snapshot, which goes back to the tablet whose it is.
    pub fn into_snapshot(self) -> Snapshot<R>
        ensures { result ≡ self.snapshot }
    {
        self.snapshot
    }
}

/// Hands all readers of what was located to the store, which counts their faults.
pub fn give_back_found<S: Store>(store: &mut S, found: Found<S::Reader>)
    ensures calm { Calm (S.view store.old) (S.view store.new) }
    ensures counts { Counts (fault_count found.snapshot.parts) (S.view store.old).faults (S.view store.new).faults }
{
    give_back_snapshot(store, found.into_snapshot());
}
