ghost use Rattle.index_file.specs.Reads.{OnDamage, TellsDamage};
ghost use Rattle.std.specs.Prelude.{◌≡◌, ◌+◌, ◌-◌, ◌<◌, ◌≤◌, ◌^◌, ◌∷◌, ◌++◌, [], ℕ, List, None, length, map, take, drop, reverse, sum, min, IfErr, IfOk, T};
ghost use Rattle.std.specs.Vec.{vec_capacity};
ghost use Rattle.index_levels.specs.Levels.{entry_at, merged};
ghost use Rattle.std.specs.FinMap.{entries, is_sorted};
ghost use Rattle.std.specs.Cmp.Lexicographic.{slice_cmp};
ghost use Rattle.std.specs.Ordering.{nat_cmp};
ghost use Rattle.index_level0.specs.Levels.{Level};
ghost use Rattle.pk_index.specs.Files.{FirstDamaged, IsSame, OneDamaged, Stay};
ghost use Rattle.pk_index.specs.Shown.{AtMostOneMore, FirstHas, HaveCause, HaveLevels};

use crate::entries::{Pair, merge};
use dev_traits::{Memory, ReadFault};
use index_level0::{Level0, Place};
use std::alloc::Global;

/// A level in a file. Which one it has is a relation, since a file that doesn't tell its bytes, or whose bytes are no level's, has none.
pub trait FileLevel: Drop {
    ghost use Rattle.std.specs.Prelude.{◌≡◌, ◌+◌, ◌≤◌, ℕ, IfErr, IfOk, List, Option, T};
    ghost use Rattle.dev_traits.specs.Causes.{HasReadCause};
    ghost use Rattle.dev_traits.specs.declared.faults.Damaged.{Damaged};
    ghost use Rattle.index_file.specs.Reads.{OnDamage, TellsDamage};
    ghost use Rattle.pk_index.specs.Files.{IsSame};
    ghost use Rattle.std.specs.FinMap.{entries, from_sorted, get, is_sorted};
    ghost use Rattle.std.specs.Cmp.Lexicographic.{slice_cmp};
    ghost use Rattle.std.specs.Ordering.{nat_cmp};
    ghost use Rattle.index_level0.specs.Levels.{Entry, Level};

    ghost has_level: { Self → Level → Type 0 };

    // What its bytes have at a key, and which level all of them are read as, whether or not it has a level. Of bytes that are
    // damaged there neither holds of anything, and of a file that doesn't tell its bytes of everything.
    ghost has_entry: { Self → List ℕ → Option Entry → Type 0 };

    ghost reads_as: { Self → Level → Type 0 };

    // How it is damaged where a key is asked, and where all its entries are.
    ghost damaged_at: { Self → List ℕ → Damaged → Type 0 };

    ghost damaged: { Self → Damaged → Type 0 };

    // How often the file was read, and how often a read failed.
    ghost reads: { Self → ℕ };

    ghost faults: { Self → ℕ };

    // Its number, and the base of its places.
    ghost named: { Self → ℕ × ℕ };

    /// Its number.
    fn number(&self) -> u64
        ensures { result ≡ (named self.now).0 };

    /// The base of its places.
    fn base(&self) -> u64
        ensures { result ≡ (named self.now).1 };

    /// How often a read failed.
    fn faults(&self) -> u64
        ensures { result ≡ faults self.now };

    /// What the file has at a key. It reads the file at most once.
    fn probe(&mut self, alloc: Global, key: &[u8]) -> Result<Option<Option<Place>>, ReadFault>
        ensures entry { IfOk result (λ entry. (level : Level) → has_level self.old level → entry ≡ get level key.now) }
        ensures told { IfOk result (λ entry. has_entry self.old key.now entry) }
        ensures same { IsSame has_level has_entry reads_as damaged_at damaged self.old self.new }
        ensures reads { reads self.new ≤ reads self.old + 1 }
        ensures named { named self.new ≡ named self.old }
        ensures cause { HasReadCause (faults self.old) (faults self.new) result }
        ensures damaged { IfErr result (λ e. OnDamage e (damaged_at self.old key.now)) }
        ensures intact { IfErr result (λ e. TellsDamage e → (level : Level) → has_level self.old level → ⊥) };

    /// All its entries in the order of their keys.
    fn entries(&mut self, alloc: Global) -> Result<Vec<Pair>, ReadFault>
        ensures entries { IfOk result (λ all. (level : Level) → has_level self.old level → all.items ≡ entries level) }
        ensures rise { IfOk result (λ all. T (is_sorted (slice_cmp nat_cmp) all.items)) }
        ensures listed { IfOk result (λ all. reads_as self.old (from_sorted all.items)) }
        ensures same { IsSame has_level has_entry reads_as damaged_at damaged self.old self.new }
        ensures named { named self.new ≡ named self.old }
        ensures cause { HasReadCause (faults self.old) (faults self.new) result }
        ensures damaged { IfErr result (λ e. OnDamage e (damaged self.old)) }
        ensures intact { IfErr result (λ e. TellsDamage e → (level : Level) → has_level self.old level → ⊥) };
}

/// The newest entry of a key in files, of which the newest is the first. Each is probed at most once.
pub(crate) fn probe_all<F: FileLevel>(
    alloc: Global,
    files: &mut [F],
    key: &[u8],
) -> Result<Option<Option<Place>>, ReadFault>
    ensures entry { IfOk result (λ entry. (ls : List Level) → HaveLevels F.has_level files.old ls → entry ≡ entry_at ls key.now) }
    ensures told { IfOk result (λ entry. FirstHas (λ f. F.has_entry f key.now) files.old entry) }
    ensures same { Stay (IsSame F.has_level F.has_entry F.reads_as F.damaged_at F.damaged) files.old files.new }
    ensures reads { AtMostOneMore (map F.reads files.old) (map F.reads files.new) }
    ensures named { map F.named files.new ≡ map F.named files.old }
    ensures cause { HaveCause (map F.faults files.old) (map F.faults files.new) result }
    ensures damaged { IfErr result (λ e. OnDamage e (λ shown. FirstDamaged (λ f. F.has_entry f key.now None) (λ f. F.damaged_at f key.now shown) files.old)) }
    ensures intact { IfErr result (λ e. TellsDamage e → (ls : List Level) → HaveLevels F.has_level files.old ls → ⊥) }
{
    for i in 0..files.len() {
        let found = match files[i].probe(alloc, key) {
            Ok(found) => found,
            Err(fault) => return Err(fault),
        };
        if found.is_some() {
            return Ok(found);
        }
    }
    Ok(None)
}

/// The newest entries of a level over the newest `count` files, in the order of their keys.
pub(crate) fn merge_newest<F: FileLevel>(
    alloc: Global,
    level0: &Level0,
    files: &mut [F],
    count: usize,
) -> Result<Vec<Pair>, ReadFault>
    requires { count ≤ length files.old }
    ensures entries { IfOk result (λ all. (ls : List Level) → HaveLevels F.has_level files.old ls → all.items ≡ entries (merged (level0.now.level ∷ take count ls))) }
    ensures rise { IfOk result (λ all. T (is_sorted (slice_cmp nat_cmp) all.items)) }
    ensures listed { IfOk result (λ all. (ls : List Level) × HaveLevels F.reads_as (take count files.old) ls × (all.items ≡ entries (merged (level0.now.level ∷ ls)))) }
    ensures same { Stay (IsSame F.has_level F.has_entry F.reads_as F.damaged_at F.damaged) files.old files.new }
    ensures older { drop count files.new ≡ drop count files.old }
    ensures named { map F.named files.new ≡ map F.named files.old }
    ensures cause { HaveCause (map F.faults files.old) (map F.faults files.new) result }
    ensures damaged { IfErr result (λ e. OnDamage e (λ shown. OneDamaged (λ f. F.damaged f shown) (take count files.old))) }
    ensures intact { IfErr result (λ e. TellsDamage e → (ls : List Level) → HaveLevels F.has_level files.old ls → ⊥) }
{
    let mut all = level0.entries(alloc)?;
    for i in 0..count {
        let older = match files[i].entries(alloc) {
            Ok(older) => older,
            Err(fault) => return Err(fault),
        };
        match merge(alloc, &all, &older) {
            Ok(both) => all = both,
            Err(_) => return Err(ReadFault::Memory),
        }
    }
    Ok(all)
}

/// Moves the newest files to others until `keep` are left. It takes no memory.
pub(crate) fn set_aside<F>(files: &mut Vec<F>, keep: usize, aside: &mut Vec<F>)
    requires within { keep ≤ length files.old.items }
    requires room { length aside.old.items + (length files.old.items - keep) ≤ vec_capacity aside.old }
    ensures kept { files.new.items ≡ drop (length files.old.items - keep) files.old.items }
    ensures moved { aside.new.items ≡ aside.old.items ++ take (length files.old.items - keep) files.old.items }
    ensures capacity { vec_capacity files.new ≡ vec_capacity files.old }
    ensures aside_capacity { vec_capacity aside.old ≤ vec_capacity aside.new }
{
    for _n in keep..files.len() {
        let file = files.remove(0);
        put_last(aside, file);
    }
}

/// Moves the oldest files to others. It takes no memory.
pub(crate) fn set_oldest_aside<F>(files: &mut Vec<F>, count: usize, aside: &mut Vec<F>)
    requires within { count ≤ length files.old.items }
    requires room { length aside.old.items + count ≤ vec_capacity aside.old }
    ensures kept { files.new.items ≡ take (length files.old.items - count) files.old.items }
    ensures moved { aside.new.items ≡ aside.old.items ++ reverse (drop (length files.old.items - count) files.old.items) }
    ensures capacity { vec_capacity files.new ≡ vec_capacity files.old }
    ensures aside_capacity { vec_capacity aside.old ≤ vec_capacity aside.new }
{
    for _n in 0..count {
        match files.pop() {
            Some(file) => put_last(aside, file),
            None => unreachable!(),
        }
    }
}

/// Puts a file behind the others, where there is room.
pub(crate) fn put_last<F>(files: &mut Vec<F>, file: F)
    requires { length files.old.items < vec_capacity files.old }
    ensures items { files.new.items ≡ files.old.items ++ file ∷ [] }
    ensures capacity { vec_capacity files.old ≤ vec_capacity files.new }
{
    match files.push(file) {
        Ok(()) => {}
        Err(_) => unreachable!(),
    }
}

/// Puts a file before the others, where there is room.
pub(crate) fn put_first<F>(files: &mut Vec<F>, file: F)
    requires { length files.old.items < vec_capacity files.old }
    ensures items { files.new.items ≡ file ∷ files.old.items }
    ensures capacity { vec_capacity files.old ≤ vec_capacity files.new }
{
    match files.insert(0, file) {
        Ok(()) => {}
        Err(_) => unreachable!(),
    }
}

/// Number and base of each file.
pub(crate) fn names_of<F: FileLevel>(alloc: Global, files: &[F]) -> Result<Vec<(u64, u64)>, Memory>
    ensures { IfOk result (λ told. told.items ≡ map F.named files.now) }
{
    let mut told = Vec::with_capacity(alloc, files.len())?;
    for file in files {
        told.push((file.number(), file.base()))?;
    }
    Ok(told)
}

/// How often reads of files failed, as far as a u64 goes.
pub(crate) fn faults_of<F: FileLevel>(files: &[F]) -> u64
    ensures { result ≡ min (sum (map F.faults files.now)) (2 ^ 64 - 1) }
{
    let mut count = 0u64;
    for file in files {
        count = count.saturating_add(file.faults());
    }
    count
}
