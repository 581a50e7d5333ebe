ghost use Rattle.std.specs.Prelude.{◌≡◌, ◌+◌, ◌-◌, ◌<◌, ◌≤◌, ◌^◌, ◌↔◌, ◌++◌, ◌∷◌, ℕ, List, [], Option, None, Some, T, is_some, length, map, take, drop, reverse, sum, max, min, nat_lt, if◌then◌else◌, IfOk, IfErr, IfNone, IsFalse, IsTrue, OnErr, OnOk};
ghost use Rattle.std.specs.Option.{option_flatten, option_to_list};
ghost use Rattle.std.specs.FinMap.{empty, entries, get, is_sorted, len};
ghost use Rattle.std.specs.Cmp.Lexicographic.{slice_cmp};
ghost use Rattle.std.specs.Ordering.{nat_cmp};
ghost use Rattle.index_file.specs.Buckets.{footer_of, index_file};
ghost use Rattle.index_file.specs.Entries.{IsFileOf};
ghost use Rattle.index_level0.specs.Levels.{Entry, Level};
ghost use Rattle.index_levels.specs.Levels.{flushed, levels, merged, newer_than, place_at, put_all, replaced};
ghost use Rattle.pk_index.specs.Files.{FirstDamaged, IsSame, OneDamaged, OnIndexDamage, Stay};
ghost use Rattle.pk_index.specs.Flushing.{IsWritten, SameAbove, SamePlaces, TakesOlder, merged_for, written};
ghost use Rattle.index_file.specs.Reads.{OnDamage, TellsDamage};
ghost use Rattle.pk_index.specs.Shown.{AtMostOneMore, HaveCause, HaveFlushCause, HaveLevels, NewestHas, TellsIndexDamage, index_of};

use crate::entries::{Pair, places, put_changes};
use crate::faults::{IndexFault, of_make, of_read};
use crate::files::{
    FileLevel, faults_of, merge_newest, names_of, probe_all, put_first, put_last, set_aside,
    set_oldest_aside,
};
use dev_traits::{FileMaker, Memory, ReadFault};
use index_file::{MadeIndex, write_index};
use index_level0::{Level0, Place};
use std::alloc::Global;
use std::marker::Model;

/// A file that a flush made, and how many of the oldest files stay below it.
#[derive(Drop)]
pub struct Flushed<X> {
    pub made: MadeIndex<X>,
    pub keep: u32,
}

/// The index of a table's keys: level 0 over at most 8 files.
#[derive(Drop)]
pub struct PkIndex<F: FileLevel> {
    level0: Level0,
    // The newest is the first.
    files: Vec<F>,
    // Files that were replaced.
    aside: Vec<F>,
}

impl<F: FileLevel> Model for PkIndex<F> {
    ghost use Rattle.std.specs.Prelude.{◌≤◌, length};
    ghost use Rattle.std.specs.Vec.{vec_capacity};
    ghost use Rattle.pk_index.specs.Shown.{Shown, coded_shown};

    ghost Value = { Shown F };

    ghost coded = { coded_shown F.code };

    ghost view = { λ p. record { level0 = p.level0; files = p.files.items; aside = p.aside.items } };

    ghost invariant = { λ p. (length p.files.items ≤ 8) × (9 ≤ vec_capacity p.files) × (9 ≤ vec_capacity p.aside) };
}

impl<F: FileLevel> PkIndex<F> {
    /// An index over files, of which the newest is the first. Where memory is wanted, the files come back.
    pub fn of(alloc: Global, mut files: Vec<F>) -> Result<PkIndex<F>, Vec<F>>
        requires { length files.items ≤ 8 }
        ensures level0 { IfOk result (λ made. made.level0 ≡ record { level = empty; spare = 0 }) }
        ensures files { IfOk result (λ made. made.files ≡ files.items) }
        ensures aside { IfOk result (λ made. made.aside ≡ []) }
        ensures back { IfErr result (λ back. back.items ≡ files.items) }
    {
        if files.reserve(9).is_err() {
            return Err(files);
        }
        match Vec::with_capacity(alloc, 9) {
            Ok(aside) => Ok(PkIndex {
                level0: Level0::new(alloc),
                files,
                aside,
            }),
            Err(_) => Err(files),
        }
    }

    /// Whether level 0 may have so many entries more.
    pub fn has_room(&self, n: u32) -> bool
        ensures { IsTrue result ↔ (len self.now.level0.level + n ≤ 524288) }
    {
        n <= Level0::MOST_ENTRIES - self.level0.len()
    }

    /// The number of files, by which a caller marks those that are there now.
    pub fn mark(&self) -> u32
        ensures count { result ≡ length self.now.files }
        ensures few { result ≤ 8 }
    {
        self.files.len() as u32
    }

    /// Makes room for so many new keys. Where memory is wanted, the index and its room are as before.
    pub fn reserve(&mut self, n: u32) -> Result<(), Memory>
        requires { len self.old.level0.level + n ≤ 524288 }
        ensures level { self.new.level0.level ≡ self.old.level0.level }
        ensures spare { OnOk result (self.new.level0.spare ≡ max self.old.level0.spare n) }
        ensures err { OnErr result (self.new ≡ self.old) }
        ensures files { self.new.files ≡ self.old.files }
        ensures aside { self.new.aside ≡ self.old.aside }
    {
        self.level0.reserve(n)?;
        Ok(())
    }

    /// Gives keys places, or None for tombstones. It takes no memory.
    pub fn put_all(&mut self, changes: Vec<Pair>)
        requires { length changes.items ≤ self.old.level0.spare }
        ensures level { self.new.level0.level ≡ put_all changes.items self.old.level0.level }
        ensures spare { self.new.level0.spare ≡ self.old.level0.spare - length changes.items }
        ensures files { self.new.files ≡ self.old.files }
        ensures aside { self.new.aside ≡ self.old.aside }
    {
        put_changes(&mut self.level0, &changes);
    }

    /// Where the index has a key. Each file is probed at most once.
    pub fn get(&mut self, alloc: Global, key: &[u8]) -> Result<Option<Place>, ReadFault>
        ensures reads { AtMostOneMore (map F.reads self.old.files) (map F.reads self.new.files) }
        ensures place { IfOk result (λ place. (files : List Level) → HaveLevels F.has_level self.old.files files → place ≡ place_at (levels (index_of self.old.level0 files)) key.now) }

        // Of any files, what the first of them that has the key has, so that no damaged one is passed over.
        ensures told { IfOk result (λ place. (entry : Option Entry) × (place ≡ option_flatten entry)
            × NewestHas F.has_entry self.old.level0.level self.old.files key.now entry) }
        ensures level0 { self.new.level0 ≡ self.old.level0 }
        ensures same { Stay (IsSame F.has_level F.has_entry F.reads_as F.damaged_at F.damaged) self.old.files self.new.files }
        ensures number { length self.new.files ≡ length self.old.files }
        ensures named { map F.named self.new.files ≡ map F.named self.old.files }
        ensures cause { HaveCause (map F.faults self.old.files) (map F.faults self.new.files) result }

        // The damage is that of the first file that can tell, and of what it reads for the key.
        ensures damaged { IfErr result (λ e. OnDamage e (λ shown. (get self.old.level0.level key.now ≡ None)
            × FirstDamaged (λ f. F.has_entry f key.now None) (λ f. F.damaged_at f key.now shown) self.old.files)) }
        ensures intact { IfErr result (λ e. TellsDamage e → (files : List Level) → HaveLevels F.has_level self.old.files files → ⊥) }
        ensures aside { self.new.aside ≡ self.old.aside }
    {
        if let Some(entry) = self.level0.get(key) {
            return Ok(entry);
        }
        let found = match probe_all(alloc, &mut self.files, key) {
            Ok(found) => found,
            Err(fault) => return Err(fault),
        };
        match found {
            Some(entry) => Ok(entry),
            None => Ok(None),
        }
    }

    // What a flush writes into one file, and how many of the oldest files it keeps.
    fn gather(&mut self, alloc: Global, keep: u32, most: u32) -> Result<(Vec<Pair>, u32), ReadFault>
        requires within { keep ≤ length self.old.files }
        requires few { keep < most }
        ensures entries { IfOk result (λ told. (files : List Level) → HaveLevels F.has_level self.old.files files → told.0.items ≡ entries (written keep most (index_of self.old.level0 files))) }
        ensures rise { IfOk result (λ told. T (is_sorted (slice_cmp nat_cmp) told.0.items)) }
        ensures listed { IfOk result (λ told. (ls : List Level) × HaveLevels F.reads_as (take (length self.old.files - told.1) self.old.files) ls
            × (told.0.items ≡ entries (merged_for (length self.old.files) keep most (self.old.level0.level ∷ ls)))) }
        ensures keep { IfOk result (λ told. told.1 ≡ (if nat_lt (length self.old.files) most then length self.old.files else keep)) }
        ensures level0 { self.new.level0 ≡ self.old.level0 }
        ensures same { Stay (IsSame F.has_level F.has_entry F.reads_as F.damaged_at F.damaged) self.old.files self.new.files }
        ensures number { length self.new.files ≡ length self.old.files }
        ensures kept { drop (length self.old.files - keep) self.new.files ≡ drop (length self.old.files - keep) self.old.files }
        ensures unread { length self.old.files < most → self.new.files ≡ self.old.files }
        ensures named { map F.named self.new.files ≡ map F.named self.old.files }
        ensures cause { HaveCause (map F.faults self.old.files) (map F.faults self.new.files) result }
        ensures damaged { IfErr result (λ e. OnDamage e (λ shown. OneDamaged (λ f. F.damaged f shown) (take (length self.old.files - (if nat_lt (length self.old.files) most then length self.old.files else keep)) self.old.files))) }
        ensures intact { IfErr result (λ e. TellsDamage e → (files : List Level) → HaveLevels F.has_level self.old.files files → ⊥) }
        ensures aside { self.new.aside ≡ self.old.aside }
    {
        let count = self.mark();
        let kept = if count < most { count } else { keep };
        let above = (count - kept) as usize;
        let all = match merge_newest(alloc, &self.level0, &mut self.files, above) {
            Ok(all) => all,
            Err(fault) => return Err(fault),
        };
        if count >= most && keep == 0 {
            return Ok((places(all), kept));
        }
        Ok((all, kept))
    }

    /// Writes one file. Where fewer than `most` files stand, it holds level 0, and the answer keeps all of them. Else it holds the
    /// newest entries of level 0 and all files but the oldest `keep`; where it keeps none, tombstones are left out. The index stays
    /// as it is, and of its files those alone are read that the answer doesn't keep.
    ///
    /// # Errors
    /// `StoreFault` where the maker or a file's reader counted a fault; `Damaged` as the files tell it; `Memory`.
    pub fn flush<M: FileMaker>(
        &mut self,
        alloc: Global,
        maker: &mut M,
        keep: u32,
        most: u32,
    ) -> Result<Flushed<M::Sealed>, IndexFault>
        requires within { keep ≤ length self.old.files }
        requires few { keep < most }
        ensures footer { IfOk result (λ told. (files : List Level) → HaveLevels F.has_level self.old.files files → told.made.footer ≡ footer_of (written keep most (index_of self.old.level0 files))) }
        ensures sealed { IfOk result (λ told. (files : List Level) → HaveLevels F.has_level self.old.files files → (bytes : List ℕ) → M.sealed_bytes told.made.sealed ≡ Some bytes
            → bytes ≡ index_file (written keep most (index_of self.old.level0 files))) }

        // Attached with the base 0, the file has exactly what is written.
        ensures file { IfOk result (λ told. (files : List Level) → HaveLevels F.has_level self.old.files files → (bytes : List ℕ) → M.sealed_bytes told.made.sealed ≡ Some bytes
            → IsFileOf 0 told.made.footer bytes (written keep most (index_of self.old.level0 files))) }

        // Of any files, what all those that it merges are read as, so that no damaged one is passed over.
        ensures listed { IfOk result (λ told. (ls : List Level) × HaveLevels F.reads_as (take (length self.old.files - told.keep) self.old.files) ls
            × (told.made.footer ≡ footer_of (merged_for (length self.old.files) keep most (self.old.level0.level ∷ ls)))
            × ((bytes : List ℕ) → M.sealed_bytes told.made.sealed ≡ Some bytes → (bytes ≡ index_file (merged_for (length self.old.files) keep most (self.old.level0.level ∷ ls)))
            × IsFileOf 0 told.made.footer bytes (merged_for (length self.old.files) keep most (self.old.level0.level ∷ ls)))) }
        ensures told { IfOk result (λ told. is_some (M.sealed_bytes told.made.sealed) ≡ is_some (M.view maker.old).made) }
        ensures keep { IfOk result (λ told. told.keep ≡ (if nat_lt (length self.old.files) most then length self.old.files else keep)) }
        ensures level0 { self.new.level0 ≡ self.old.level0 }
        ensures same { Stay (IsSame F.has_level F.has_entry F.reads_as F.damaged_at F.damaged) self.old.files self.new.files }
        ensures number { length self.new.files ≡ length self.old.files }
        ensures kept { drop (length self.old.files - keep) self.new.files ≡ drop (length self.old.files - keep) self.old.files }
        ensures unread { length self.old.files < most → self.new.files ≡ self.old.files }
        ensures named { map F.named self.new.files ≡ map F.named self.old.files }
        ensures cause { HaveFlushCause (map F.faults self.old.files) (map F.faults self.new.files) (M.view maker.old).faults (M.view maker.new).faults result }

        // The damage is that of a file that it merges.
        ensures damaged { IfErr result (λ e. OnIndexDamage e (λ shown. OneDamaged (λ f. F.damaged f shown) (take (length self.old.files - (if nat_lt (length self.old.files) most then length self.old.files else keep)) self.old.files))) }
        ensures intact { IfErr result (λ e. TellsIndexDamage e → (files : List Level) → HaveLevels F.has_level self.old.files files → ⊥) }

        // The maker has no file under way.
        ensures closed { OnOk result (IsFalse (M.view maker.new).is_started) }
        ensures tells { is_some (M.view maker.new).made ≡ is_some (M.view maker.old).made }
        ensures aside { self.new.aside ≡ self.old.aside }
    {
        let (entries, keep) = match self.gather(alloc, keep, most) {
            Ok(told) => told,
            Err(fault) => return Err(of_read(fault)),
        };
        match write_index(alloc, maker, &entries) {
            Ok(made) => Ok(Flushed { made, keep }),
            Err(fault) => Err(of_make(fault)),
        }
    }

    /// The newest entry of each key that stands above the oldest `mark` files, in the order of the keys.
    pub fn newer_than(&mut self, alloc: Global, mark: u32) -> Result<Vec<Pair>, ReadFault>
        requires { mark ≤ length self.old.files }
        ensures entries { IfOk result (λ all. (files : List Level) → HaveLevels F.has_level self.old.files files → all.items ≡ entries (merged (newer_than mark (index_of self.old.level0 files)))) }

        // Of any files, what those above the mark are read as, so that no damaged one is passed over.
        ensures listed { IfOk result (λ all. (ls : List Level) × HaveLevels F.reads_as (take (length self.old.files - mark) self.old.files) ls
            × (all.items ≡ entries (merged (self.old.level0.level ∷ ls)))) }
        ensures level0 { self.new.level0 ≡ self.old.level0 }
        ensures same { Stay (IsSame F.has_level F.has_entry F.reads_as F.damaged_at F.damaged) self.old.files self.new.files }
        ensures number { length self.new.files ≡ length self.old.files }
        ensures marked { drop (length self.old.files - mark) self.new.files ≡ drop (length self.old.files - mark) self.old.files }
        ensures named { map F.named self.new.files ≡ map F.named self.old.files }
        ensures cause { HaveCause (map F.faults self.old.files) (map F.faults self.new.files) result }
        ensures damaged { IfErr result (λ e. OnDamage e (λ shown. OneDamaged (λ f. F.damaged f shown) (take (length self.old.files - mark) self.old.files))) }
        ensures intact { IfErr result (λ e. TellsDamage e → (files : List Level) → HaveLevels F.has_level self.old.files files → ⊥) }
        ensures aside { self.new.aside ≡ self.old.aside }
    {
        let above = self.files.len() - mark as usize;
        let all = match merge_newest(alloc, &self.level0, &mut self.files, above) {
            Ok(all) => all,
            Err(fault) => return Err(fault),
        };
        Ok(all)
    }

    /// Puts the file that a flush made above the oldest `keep` files in place of all that is newer. It takes no memory.
    pub fn settle_flush(&mut self, file: F, keep: u32)
        requires within { keep ≤ length self.old.files }
        requires few { keep < 8 }
        requires none_aside { self.old.aside ≡ [] }
        ensures index { (files : List Level) (level : Level) → HaveLevels F.has_level self.old.files files → F.has_level file level → HaveLevels F.has_level self.new.files (flushed level keep (index_of self.old.level0 files)).files }

        // Where the file has what a flush of these levels writes, each key keeps its place.
        ensures map { (files : List Level) (level : Level) (asked most : ℕ) → HaveLevels F.has_level self.old.files files → F.has_level file level
            → IsWritten asked most keep (index_of self.old.level0 files) level
            → (after : List Level) × HaveLevels F.has_level self.new.files after × SamePlaces (index_of self.old.level0 files) (index_of self.new.level0 after) }

        // And above a mark, where it keeps the marked files, each key keeps its entry, be it a tombstone.
        ensures above { (files : List Level) (level : Level) (asked most mark : ℕ) → HaveLevels F.has_level self.old.files files → F.has_level file level
            → IsWritten asked most keep (index_of self.old.level0 files) level → 1 ≤ mark → mark ≤ keep
            → (after : List Level) × HaveLevels F.has_level self.new.files after × SameAbove mark (index_of self.old.level0 files) (index_of self.new.level0 after) }
        ensures level { self.new.level0.level ≡ empty }
        ensures spare { self.new.level0.spare ≡ self.old.level0.spare }
        ensures files { self.new.files ≡ file ∷ drop (length self.old.files - keep) self.old.files }
        ensures number { length self.new.files ≡ keep + 1 }
        ensures aside { self.new.aside ≡ take (length self.old.files - keep) self.old.files }
    {
        set_aside(&mut self.files, keep as usize, &mut self.aside);
        put_first(&mut self.files, file);
        self.level0.clear();
    }

    /// Puts one file in place of the oldest `mark` ones: keys with an entry above the mark keep it, and each other key has the file's.
    /// It takes no memory.
    pub fn replace_older(&mut self, mark: u32, file: F)
        requires some { 1 ≤ mark }
        requires within { mark ≤ length self.old.files }
        requires none_aside { self.old.aside ≡ [] }
        ensures index { (files : List Level) (level : Level) → HaveLevels F.has_level self.old.files files → F.has_level file level → HaveLevels F.has_level self.new.files (replaced level mark (index_of self.old.level0 files)).files }
        ensures map { (files : List Level) (level : Level) → HaveLevels F.has_level self.old.files files → F.has_level file level
            → (after : List Level) × HaveLevels F.has_level self.new.files after × TakesOlder level mark (index_of self.old.level0 files) (index_of self.new.level0 after) }
        ensures files { self.new.files ≡ take (length self.old.files - mark) self.old.files ++ file ∷ [] }
        ensures level0 { self.new.level0 ≡ self.old.level0 }
        ensures number { length self.new.files + mark ≡ length self.old.files + 1 }
        ensures aside { self.new.aside ≡ reverse (drop (length self.old.files - mark) self.old.files) }
    {
        set_oldest_aside(&mut self.files, mark as usize, &mut self.aside);
        put_last(&mut self.files, file);
    }

    /// One of the files that were replaced, or None where none is left. It takes no memory.
    pub fn take_aside(&mut self) -> Option<F>
        ensures level0 { self.new.level0 ≡ self.old.level0 }
        ensures files { self.new.files ≡ self.old.files }
        ensures aside { self.old.aside ≡ self.new.aside ++ option_to_list result }
        ensures none { IfNone result (self.old.aside ≡ []) }
    {
        self.aside.pop()
    }

    /// The files, of which the newest is the first. It takes no memory. Level 0 is let go: where it is empty, the files alone have
    /// each key's place.
    pub fn into_files(self) -> Vec<F>
        requires { self.aside ≡ [] }
        ensures files { result.items ≡ self.files }
        ensures map { (files : List Level) → HaveLevels F.has_level self.files files → self.level0.level ≡ empty
            → HaveLevels F.has_level result.items files × ((key : List ℕ) → place_at files key ≡ place_at (levels (index_of self.level0 files)) key) }
    {
        let PkIndex {
            level0: _,
            files,
            aside: _,
        } = self;
        files
    }

    /// Number and base of each file, of which the newest is the first.
    pub fn level_files(&self, alloc: Global) -> Result<Vec<(u64, u64)>, Memory>
        ensures { IfOk result (λ told. told.items ≡ map F.named self.now.files) }
    {
        names_of(alloc, &self.files)
    }

    /// How often reads of the files failed, those set aside among them, as far as a u64 goes.
    pub fn faults(&self) -> u64
        ensures { result ≡ min (sum (map F.faults self.now.files) + sum (map F.faults self.now.aside)) (2 ^ 64 - 1) }
    {
        faults_of(&self.files).saturating_add(faults_of(&self.aside))
    }
}
