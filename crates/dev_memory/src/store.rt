ghost use Rattle.std.specs.Prelude.{◌≡◌, ◌^◌, ◌+◌, ◌≤◌, ◌<◌, None, true, length, map, take, drop, IfOk, IsErrOf};
ghost use Rattle.std.specs.Prelude.{IsSome, OnErr, IsFalse, refl};
ghost use Rattle.std.specs.Ordering.{nat_cmp};
ghost use Rattle.std.specs.FinMap.Entries.{find};
ghost use Rattle.dev_traits.specs.Causes.{Counts};
ghost use Rattle.dev_memory.specs.Laws.{counts, only, read_is_image, files_kept, empty_kept, three_read, short_now};
ghost use Rattle.dev_memory.specs.Laws.{short_since, short_read};
ghost use Rattle.dev_memory.specs.Disk.{disk_now, read_of, entries_at};
ghost use Rattle.dev_memory.specs.Kept.{IsValid};
ghost use Rattle.dev_memory.specs.Reader as made;
ghost use Rattle.dev_memory.specs.Reader.{Opens};
ghost use Rattle.std.specs.Arc.{arc_value};

use crate::area::is_within;
use crate::faults::{Listed, strikes};
use crate::kept::Kept;
use crate::{MemMaker, MemReader, MemSealed};
use dev_traits::{DevError, Failed, FileMaker, Memory, SealedReader, Store};
use std::alloc::Global;
use std::sync::Arc;

/// A store in memory. It fails at the listed calls, and where a write would make an area longer than 2^44 bytes. It
/// keeps a record of each call that wrote, so that what a crash at any moment might have left can be said.
#[derive(Drop)]
pub struct MemStore {
    pub(crate) alloc: Global,
    pub(crate) kept: Kept,
    pub(crate) fails: Vec<u64>,
    pub(crate) stop: Option<u64>,
    pub(crate) maker_fails: Listed,
    pub(crate) reader_fails: Listed,
    pub(crate) count: u64,
    pub(crate) faults: u64,
    pub(crate) is_honest: bool,
    ghost valid: { IsValid kept.held },
}

// A fault, counted.
fn fail(faults: &mut u64) -> Failed
    ensures { Counts 1 faults.old faults.new }
{
    *faults = faults.saturating_add(1);
    Failed
}

// A reader of the file of a number.
fn open_number(kept: &Kept, number: u64, fails: &Listed) -> Result<MemReader, DevError>
    ensures found { IfOk result (λ reader. Opens kept.now.held number reader) }
    ensures listed { IfOk result (made.ListsFrom (arc_value fails.now).items) }
    ensures absent { IsErrOf result DevError.Absent → find nat_cmp number (entries_at
        (length kept.now.held.deeds) kept.now.held.files) ≡ None }
    ensures never_failed { ¬ IsErrOf result DevError.Failed }
    ensures memory { IsErrOf result DevError.Memory → IsSome (find nat_cmp number (entries_at
        (length kept.now.held.deeds) kept.now.held.files)) }
{
    match kept.file(number) {
        None => Err(DevError::Absent),
        Some(file) => match MemReader::open(file, fails) {
            Ok(reader) => Ok(reader),
            Err(_) => Err(DevError::Memory),
        },
    }
}

// Reads as many bytes as the buffer has, from an offset on.
fn copy_from(bytes: &[u8], at: u64, into: &mut [u8])
    requires { at + length into.old ≤ length bytes.now }
    ensures { into.new ≡ take (length into.old) (drop at bytes.now) }
{
    into.copy_from_slice(&bytes[at as usize..][..into.len()]);
}

impl Store for MemStore {
    ghost use Rattle.std.specs.Prelude.{◌-◌, ◌∷◌, [], min, ℕ, List, true, false, Some, OnOk};
    ghost use Rattle.std.specs.Option.{option_map};
    ghost use Rattle.dev_traits.specs.Causes.{HasCause, HasDevCause};
    ghost use Rattle.dev_traits.specs.Image.{area_of, file, overwritten, with_area, with_file, with_files_of, Same};
    ghost use Rattle.dev_traits.specs.Image.{TornIn, Blanked, Forgets, ForgetsSome};
    ghost use Rattle.std.specs.List.Sorted.{IsStrictlyIncreasing};
    ghost use Rattle.dev_traits.specs.Reader.{IsNew};
    ghost use Rattle.dev_traits.specs.View.{Told, EachImage, Leaves, Calm, Spends, ReadsElsewhere};
    ghost use Rattle.dev_memory.specs.Disk as disk;
    ghost use Rattle.dev_memory.specs.Disk.{Wrote, Synced};
    ghost use Rattle.dev_memory.specs.Kept.{grown, Adopts, forgotten};
    ghost use Rattle.dev_memory.specs.Maker.{maker_view, sealed_fails_of, ListsFrom};
    ghost use Rattle.dev_memory.specs.Reader.{reader_view};
    ghost use Rattle.dev_memory.specs.Store.{view_of, held_of, disk_of, maker_fails_of, reader_fails_of, Counted};
    ghost use Rattle.dev_memory.specs.Store.{Uncounted, IsNextStruck, FailsOnly};

    type Maker = MemMaker;

    type Reader = MemReader;

    ghost view = { view_of };

    ghost counts_now = { λ s t image le may. counts s.kept.held t image le may };

    ghost only_now = { λ s image might. only s.kept.held image might };

    ghost three_areas = { λ s image is. three_read s.kept.held s.valid.three image is };

    ghost short_now = { λ s image may. short_now s.kept.held image s.valid may };

    ghost short_since = { λ s t image might. short_since s.kept.held t image s.valid might };

    ghost short_read = { λ s image is. short_read s.kept.held s.valid image is };

    ghost honest_reads = { λ s honest. (read_of (disk_now s.kept.held), refl, read_is_image s.kept.held s.valid) };

    ghost honest_files = { λ s honest image is. files_kept s.kept.held image is };

    ghost honest_empty = { λ s honest image is. empty_kept s.kept.held image is };

    ghost sealed_tells = { λ s sealed tells. tells };

    fn faults(&self) -> u64 {
        self.faults
    }

    fn room(&mut self, calls: u64, bytes: u64) -> Result<(), Memory>
        ensures kept { held_of self.new ≡ held_of self.old }
        ensures uncounted { Uncounted self.old self.new }
        // As the trait says.
        ensures calls { OnOk result (calls ≤ (view_of self.new).spare_calls) }
        ensures bytes { OnOk result (bytes ≤ (view_of self.new).spare_bytes) }
        ensures memory { calls ≤ (view_of self.old).spare_calls → bytes ≤ (view_of self.old).spare_bytes
            → OnErr result ⊥ }
        ensures calm { Calm (view_of self.old) (view_of self.new) }
        ensures faults { (view_of self.new).faults ≡ (view_of self.old).faults }
    {
        self.kept.room(calls, bytes)
    }

    fn length(&mut self, area: u32) -> Result<u64, Failed>
        requires { area < 3 }
        ensures kept { held_of self.new ≡ held_of self.old }
        ensures fails { FailsOnly ⊥ self.old self.new result }
        // As the trait says.
        ensures length { IfOk result (λ n. Told (view_of self.old) (λ image. n ≡ length (area_of image area))) }
        ensures bound { IfOk result (λ n. n ≤ 2 ^ 44) }
        ensures calm { Calm (view_of self.old) (view_of self.new) }
        ensures cause { HasCause (view_of self.old).faults (view_of self.new).faults result }
    {
        if strikes(&self.fails, self.stop, &mut self.count, &mut self.faults) {
            return Err(Failed);
        }
        Ok(self.kept.area(area).len() as u64)
    }

    fn read(&mut self, area: u32, at: u64, into: &mut [u8]) -> Result<(), Failed>
        requires there { area < 3 }
        requires inside { Told (view_of self.old) (λ image. at + length into.old ≤ length (area_of image area)) }
        ensures kept { held_of self.new ≡ held_of self.old }
        ensures fails { FailsOnly ⊥ self.old self.new result }
        // As the trait says.
        ensures bytes { OnOk result (Told (view_of self.old) (λ image. into.new ≡ take (length into.old) (drop at
            (area_of image area)))) }
        ensures calm { Calm (view_of self.old) (view_of self.new) }
        ensures cause { HasCause (view_of self.old).faults (view_of self.new).faults result }
    {
        if strikes(&self.fails, self.stop, &mut self.count, &mut self.faults) {
            return Err(Failed);
        }
        copy_from(self.kept.area(area), at, into);
        Ok(())
    }

    fn write_at(&mut self, area: u32, at: u64, piece: &[u8]) -> Result<(), Failed>
        requires there { area < 3 }
        requires calls { 1 ≤ (view_of self.old).spare_calls }
        requires bytes { length piece.now ≤ (view_of self.old).spare_bytes }
        requires inside { Told (view_of self.old) (λ image. (1 ≤ length (area_of image area))
            × (at ≤ length (area_of image area))) }
        ensures done { OnOk result (held_of self.new ≡ grown (held_of self.old) (Wrote area at piece.now true)) }
        ensures undone { OnErr result (at + length piece.now ≤ 2 ^ 44
            → held_of self.new ≡ grown (held_of self.old) (Wrote area at piece.now false)) }
        ensures refused { 2 ^ 44 < at + length piece.now → held_of self.new ≡ held_of self.old }
        ensures fails { FailsOnly (2 ^ 44 < at + length piece.now) self.old self.new result }
        // As the trait says.
        ensures written { OnOk result ((view_of self.new).seen ≡ option_map (λ image. with_area area (overwritten
            (area_of image area) at piece.now) image) (view_of self.old).seen) }
        ensures bound { OnOk result (at + length piece.now ≤ 2 ^ 44) }
        ensures elsewhere { ReadsElsewhere area (view_of self.old) (view_of self.new) }
        ensures spends { Spends 1 (length piece.now) (view_of self.old) (view_of self.new) }
        ensures crash { Leaves (TornIn area at (length piece.now)) (view_of self.old) (view_of self.new) }
        ensures cause { HasCause (view_of self.old).faults (view_of self.new).faults result }
    {
        let struck = strikes(&self.fails, self.stop, &mut self.count, &mut self.faults);
        match (struck, is_within(at, piece)) {
            (false, true) => {
                self.kept.write(area, at, piece);
                Ok(())
            }
            (true, true) => {
                self.kept.fail_write(area, at, piece);
                Err(Failed)
            }
            (true, false) => Err(Failed),
            (false, false) => Err(fail(&mut self.faults)),
        }
    }

    fn sync(&mut self, area: u32) -> Result<(), Failed>
        requires there { area < 3 }
        requires calls { 1 ≤ (view_of self.old).spare_calls }
        ensures done { OnOk result (held_of self.new ≡ grown (held_of self.old) (Synced area)) }
        ensures undone { OnErr result (held_of self.new ≡ held_of self.old) }
        ensures fails { FailsOnly ⊥ self.old self.new result }
        // As the trait says.
        ensures seen { (view_of self.new).seen ≡ (view_of self.old).seen }
        ensures durable { OnOk result (Told (view_of self.new) (λ image. EachImage (view_of self.new)
            (λ left. area_of left area ≡ area_of image area))) }
        ensures spends { Spends 1 0 (view_of self.old) (view_of self.new) }
        ensures crash { Leaves Same (view_of self.old) (view_of self.new) }
        ensures cause { HasCause (view_of self.old).faults (view_of self.new).faults result }
    {
        if strikes(&self.fails, self.stop, &mut self.count, &mut self.faults) {
            return Err(Failed);
        }
        self.kept.sync(area);
        Ok(())
    }

    fn blank(&mut self, area: u32) -> Result<(), Failed>
        requires there { area < 3 }
        requires calls { 1 ≤ (view_of self.old).spare_calls }
        ensures done { OnOk result (held_of self.new ≡ grown (held_of self.old) (disk.Blanked area true)) }
        ensures undone { OnErr result (held_of self.new ≡ grown (held_of self.old) (disk.Blanked area false)) }
        ensures fails { FailsOnly ⊥ self.old self.new result }
        // As the trait says.
        ensures blank { OnOk result ((view_of self.new).seen ≡ option_map (with_area area (0 ∷ []))
            (view_of self.old).seen) }
        ensures durable { OnOk result (EachImage (view_of self.new) (λ left. area_of left area ≡ 0 ∷ [])) }
        ensures elsewhere { ReadsElsewhere area (view_of self.old) (view_of self.new) }
        ensures spends { Spends 1 0 (view_of self.old) (view_of self.new) }
        ensures crash { Leaves (Blanked area) (view_of self.old) (view_of self.new) }
        ensures cause { HasCause (view_of self.old).faults (view_of self.new).faults result }
    {
        if strikes(&self.fails, self.stop, &mut self.count, &mut self.faults) {
            self.kept.fail_blank(area);
            return Err(Failed);
        }
        self.kept.blank(area);
        Ok(())
    }

    fn maker(&mut self) -> Result<MemMaker, Memory>
        ensures listed { IfOk result (ListsFrom (maker_fails_of self.old) (reader_fails_of self.old)) }
        ensures kept { held_of self.new ≡ held_of self.old }
        ensures uncounted { Uncounted self.old self.new }
        // As the trait says.
        ensures new { IfOk result (λ maker. (maker_view maker).faults ≡ 0) }
        ensures tells { IfOk result (λ maker. IsSome (view_of self.old).seen → IsSome (maker_view maker).made) }
        ensures calm { Calm (view_of self.old) (view_of self.new) }
        ensures faults { (view_of self.new).faults ≡ (view_of self.old).faults }
    {
        let fails = Arc::try_clone(&self.maker_fails)?;
        let reader_fails = Arc::try_clone(&self.reader_fails)?;
        Ok(MemMaker::new(self.alloc, fails, reader_fails))
    }

    fn adopt(&mut self, number: u64, sealed: MemSealed) -> Result<MemReader, Failed>
        requires calls { 1 ≤ (view_of self.old).spare_calls }
        requires new { Told (view_of self.old) (λ image. file image number ≡ None) }
        ensures listed { IfOk result (made.ListsFrom (sealed_fails_of sealed)) }
        ensures done { OnOk result (Adopts number sealed.file (held_of self.old) (held_of self.new)) }
        ensures undone { OnErr result (held_of self.new ≡ held_of self.old) }
        ensures fails { FailsOnly ⊥ self.old self.new result }
        // As the trait says.
        ensures adopted { OnOk result ((bytes : List ℕ) → Some sealed.file ≡ Some bytes
            → (view_of self.new).seen ≡ option_map (with_file number bytes) (view_of self.old).seen) }
        ensures not_adopted { OnErr result ((view_of self.new).seen ≡ (view_of self.old).seen) }
        ensures durable { OnOk result ((bytes : List ℕ) → Some sealed.file ≡ Some bytes
            → EachImage (view_of self.new) (λ left. file left number ≡ Some bytes)) }
        ensures new { IfOk result (λ reader. IsNew (reader_view reader)) }
        ensures bytes { IfOk result (λ reader. (reader_view reader).bytes ≡ Some sealed.file) }
        ensures spends { Spends 1 0 (view_of self.old) (view_of self.new) }
        ensures crash { Leaves Same (view_of self.old) (view_of self.new) }
        ensures cause { HasCause (view_of self.old).faults (view_of self.new).faults result }
    {
        if strikes(&self.fails, self.stop, &mut self.count, &mut self.faults) {
            return Err(Failed);
        }
        let MemSealed { file, reader } = sealed;
        self.kept.adopt(number, file);
        Ok(reader)
    }

    fn reader(&mut self, number: u64) -> Result<MemReader, DevError>
        ensures listed { IfOk result (made.ListsFrom (reader_fails_of self.old)) }
        ensures kept { held_of self.new ≡ held_of self.old }
        ensures counted { Counted self.old self.new }
        ensures struck { IsNextStruck self.old → IsErrOf result DevError.Failed }
        ensures only { IsErrOf result DevError.Failed → IsNextStruck self.old }
        // As the trait says.
        ensures new { IfOk result (λ reader. IsNew (reader_view reader)) }
        ensures bytes { IfOk result (λ reader. Told (view_of self.old) (λ image.
            (reader_view reader).bytes ≡ file image number)) }
        ensures there { IfOk result (λ _. Told (view_of self.old) (λ image. IsSome (file image number))) }
        ensures absent { Told (view_of self.old) (λ image. IsErrOf result DevError.Absent → file image number ≡ None) }
        ensures memory { Told (view_of self.old) (λ image. IsErrOf result DevError.Memory
            → IsSome (file image number)) }
        ensures calm { Calm (view_of self.old) (view_of self.new) }
        ensures cause { HasDevCause (view_of self.old).faults (view_of self.new).faults result }
    {
        if strikes(&self.fails, self.stop, &mut self.count, &mut self.faults) {
            return Err(DevError::Failed);
        }
        open_number(&self.kept, number, &self.reader_fails)
    }

    fn forget_others(&mut self, keep: &[u64]) -> Result<(), Failed>
        requires calls { 1 ≤ (view_of self.old).spare_calls }
        requires rising { IsStrictlyIncreasing keep.now }
        ensures kept { Told (view_of self.old) (λ before. Told (view_of self.new) (ForgetsSome keep.now before)) }
        ensures done { OnOk result (held_of self.new ≡ forgotten keep.now (held_of self.old)) }
        ensures undone { OnErr result (held_of self.new ≡ held_of self.old) }
        ensures fails { FailsOnly ⊥ self.old self.new result }
        // As the trait says.
        ensures forgot { OnOk result ((view_of self.new).seen ≡ option_map (with_files_of keep.now)
            (view_of self.old).seen) }
        ensures spends { Spends 1 0 (view_of self.old) (view_of self.new) }
        ensures crash { Leaves (Forgets keep.now) (view_of self.old) (view_of self.new) }
        ensures cause { HasCause (view_of self.old).faults (view_of self.new).faults result }
    {
        if strikes(&self.fails, self.stop, &mut self.count, &mut self.faults) {
            return Err(Failed);
        }
        self.kept.forget_others(keep);
        Ok(())
    }

    fn give_back(&mut self, maker: MemMaker)
        ensures kept { held_of self.new ≡ held_of self.old }
        ensures uncounted { Uncounted self.old self.new }
        // As the trait says.
        ensures calm { Calm (view_of self.old) (view_of self.new) }
        ensures counts { Counts (maker_view maker).faults (view_of self.old).faults (view_of self.new).faults }
    {
        self.faults = self.faults.saturating_add(maker.faults());
    }

    fn give_back_reader(&mut self, reader: MemReader)
        ensures kept { held_of self.new ≡ held_of self.old }
        ensures uncounted { Uncounted self.old self.new }
        // As the trait says.
        ensures calm { Calm (view_of self.old) (view_of self.new) }
        ensures counts { Counts (reader_view reader).faults (view_of self.old).faults (view_of self.new).faults }
    {
        self.faults = self.faults.saturating_add(reader.faults());
    }
}
