ghost use Rattle.std.specs.Prelude.{◌≡◌, ◌+◌, ◌-◌, ◌^◌, ◌≤◌, ℕ, List, Some, IfOk, length, refl};
ghost use Rattle.dev_traits.specs.Reader.{ReaderView};
ghost use Rattle.dev_memory.specs.Told.{size_told};

use crate::SharedBytes;
use crate::faults::{Listed, strikes};
use dev_traits::{Failed, Memory, SealedReader};
use std::sync::Arc;

/// A reader of a file in memory, which fails at the listed reads, counted from 1.
#[derive(Drop)]
pub struct MemReader {
    file: SharedBytes,
    fails: Listed,
    count: u64,
    faults: u64,
    reads: u64,
    ghost short: { length file ≤ 2 ^ 44 },
    ghost counted: { reads ≤ 2 ^ 64 - 1 },
}

impl MemReader {
    ghost use Rattle.std.specs.Arc.{arc_value};
    ghost use Rattle.dev_memory.specs.Reader.{IsNewOver, ListsFrom};

    pub(crate) fn new(file: SharedBytes, fails: Listed) -> MemReader
        requires { length file ≤ 2 ^ 44 }
        ensures new { IsNewOver file result }
        ensures listed { ListsFrom (arc_value fails).items result }
    {
        MemReader {
            file,
            fails,
            count: 0,
            faults: 0,
            reads: 0,
        }
    }

    /// A reader of these bytes.
    pub(crate) fn open(file: &SharedBytes, fails: &Listed) -> Result<MemReader, Memory>
        ensures new { IfOk result (λ reader. IsNewOver file.now reader) }
        ensures listed { IfOk result (ListsFrom (arc_value fails.now).items) }
    {
        let shared = file.another()?;
        let fails = Arc::try_clone(fails)?;
        Ok(MemReader::new(shared, fails))
    }
}

impl SealedReader for MemReader {
    ghost use Rattle.std.specs.Prelude.{◌-◌, min, take, drop, OnOk, OnErr};
    ghost use Rattle.dev_traits.specs.Causes.{HasCause};
    ghost use Rattle.dev_traits.specs.Reader.{SameFile, IsNew};
    ghost use Rattle.dev_memory.specs.Reader.{reader_view, fails_of, ListsFrom, FailsAsListed, Uncounted};

    ghost view = { λ r. record { bytes = Some r.file; size = length r.file; faults = r.faults; reads = r.reads } };

    ghost size_is_told = { λ r bytes is. size_told r.file bytes is };

    ghost size_is_bounded = { λ r. r.short };

    ghost reads_are_bounded = { λ r. r.counted };

    fn faults(&self) -> u64 {
        self.faults
    }

    fn length(&self) -> u64 {
        self.file.as_slice().len() as u64
    }

    fn read_at(&mut self, at: u64, into: &mut [u8]) -> Result<(), Failed>
        requires { at + length into.old ≤ (reader_view self.old).size }
        ensures fails { FailsAsListed self.old self.new result }
        // As the trait says.
        ensures bytes { OnOk result ((bytes : List ℕ) → (reader_view self.old).bytes ≡ Some bytes
            → into.new ≡ take (length into.old) (drop at bytes)) }
        ensures same { SameFile (reader_view self.old) (reader_view self.new) }
        ensures reads { (reader_view self.new).reads ≡ min ((reader_view self.old).reads + 1) (2 ^ 64 - 1) }
        ensures cause { HasCause (reader_view self.old).faults (reader_view self.new).faults result }
    {
        self.reads = self.reads.saturating_add(1);
        if strikes(&self.fails, None, &mut self.count, &mut self.faults) {
            return Err(Failed);
        }
        let start = at as usize;
        let bytes = self.file.as_slice();
        into.copy_from_slice(&bytes[start..start + into.len()]);
        Ok(())
    }

    fn another(&mut self) -> Result<Self, Memory>
        ensures listed { IfOk result (ListsFrom (fails_of self.old)) }
        ensures as_listed { Uncounted self.old self.new }
        // As the trait says.
        ensures new { IfOk result (λ other. IsNew (reader_view other)) }
        ensures file { IfOk result (λ other. SameFile (reader_view self.old) (reader_view other)) }
        ensures same { SameFile (reader_view self.old) (reader_view self.new) }
        ensures counted { OnOk result ((reader_view self.new).reads ≡ min ((reader_view self.old).reads + 1)
            (2 ^ 64 - 1)) }
        ensures uncounted { OnErr result ((reader_view self.new).reads ≡ (reader_view self.old).reads) }
        ensures faults { (reader_view self.new).faults ≡ (reader_view self.old).faults }
    {
        let file = self.file.another()?;
        let fails = Arc::try_clone(&self.fails)?;
        self.reads = self.reads.saturating_add(1);
        Ok(MemReader::new(file, fails))
    }
}
