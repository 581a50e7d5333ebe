ghost use Rattle.std.specs.Prelude.{◌≡◌, ◌<◌, ℕ, IfNone, IfOk, IfSome, Some, length, slice_get};
ghost use Rattle.snapshot_scan.specs.Parts.{PartView};
ghost use Rattle.old_rows.specs.PartsByFile.{FindsParts, found_part, IsPartOfFile};

use dev_traits::SealedReader;
use snapshot_scan::Snapshot;
use std::alloc::{AllocError, Global};
use std::collections::BTreeMap;

/// The parts of a snapshot by the numbers of their files.
#[derive(Drop)]
pub struct PartsByFile {
    parts: BTreeMap<u64, u64>,
}

impl PartsByFile {
    /// Of a snapshot.
    pub fn of<R: SealedReader>(
        alloc: Global,
        snapshot: &Snapshot<R>,
    ) -> Result<PartsByFile, AllocError>
        ensures { IfOk result (λ found. FindsParts found snapshot.now.parts) }
    {
        let mut parts = BTreeMap::new(alloc);
        for i in 0..snapshot.segments() {
            parts.insert(snapshot.file(i), i)?;
        }
        Ok(PartsByFile { parts })
    }

    /// The part of a file.
    pub fn part_of(&self, file: u64) -> Option<u64>
        ensures { result ≡ found_part self.now file }
    {
        match self.parts.get(&file) {
            Some(part) => Some(*part),
            None => None,
        }
    }
}
