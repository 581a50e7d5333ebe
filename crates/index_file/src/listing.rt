ghost use Rattle.std.specs.Prelude.{◌≡◌, ◌≤◌, ◌++◌, IfErr, IfOk, OnOk, IsTrue, List, T, length, map};
ghost use Rattle.std.specs.List.{IsDistinct};
ghost use Rattle.std.specs.Map.{keys_of};
ghost use Rattle.std.specs.FinMap.{entries, from_entries, from_sorted, is_sorted};
ghost use Rattle.std.specs.Cmp.Lexicographic.{slice_cmp};
ghost use Rattle.std.specs.Ordering.{eq_by_cmp, nat_cmp};
ghost use Rattle.index_level0.specs.Levels.{Level};
ghost use Rattle.index_file.specs.Damages.{IsBucketDamage, IsFileDamage};
ghost use Rattle.index_file.specs.Entries.{HasLevel, pair_with_base, sums_fit};
ghost use Rattle.index_file.specs.Buckets.{Pair};
ghost use Rattle.index_file.specs.Listing.{all_based, HaveEntries, ReadsAs};
ghost use Rattle.index_file.specs.Reads.{KnowsFooter, OnDamage, OnFile, Reading, TellsDamage};

use crate::bucket_reads::read_entries_of;
use crate::faults::{PartFault, fault_of};
use crate::footers::IndexFooter;
use crate::index_files::IndexFile;
use crate::look_ups::with_base;
use dev_traits::{Part, ReadFault, SealedReader, Shown};
use index_level0::{KeyBytes, Place};
use std::alloc::{AllocError, Global};

// Puts entries, counted from a base, behind others.
fn push_based(
    out: &mut Vec<(KeyBytes, Option<Place>)>,
    entries: &[(KeyBytes, Option<Place>)],
    base: u64,
) -> Result<(), AllocError>
    requires { IsTrue (sums_fit base entries.now) }
    ensures { OnOk result (out.new.items ≡ out.old.items ++ map (pair_with_base base) entries.now) }
{
    for entry in entries {
        out.push((entry.0.copy(), with_base(entry.1, base)))?;
    }
    Ok(())
}

// The entries of all buckets, one bucket behind the other.
fn gather<R: SealedReader>(
    alloc: Global,
    reader: &mut R,
    footer: &IndexFooter,
    number: u64,
    base: u64,
) -> Result<Vec<(KeyBytes, Option<Place>)>, ReadFault>
    requires known { ∥ KnowsFooter (R.view reader.old) footer.now ∥₁ }
    requires some { 1 ≤ length footer.now.buckets }
    ensures distinct { IfOk result (λ all. IsDistinct (eq_by_cmp (slice_cmp nat_cmp)) (keys_of all.items)) }
    ensures level { IfOk result (λ all. (level : Level) → HasLevel base footer.now (R.view reader.old) level → (from_entries {R = slice_cmp nat_cmp} all.items ≡ level) × (length all.items ≡ footer.now.entries)) }
    ensures listed { IfOk result (λ all. OnFile (R.view reader.old) (λ file. (buckets : List (List Pair)) × (length buckets ≡ length footer.now.buckets)
        × HaveEntries base footer.now file 0 buckets × (all.items ≡ all_based base buckets))) }
    ensures damaged { IfErr result (λ e. OnDamage e (IsBucketDamage base footer.now number (R.view reader.old))) }
    ensures reading { Reading (length footer.now.buckets) (R.view reader.old) (R.view reader.new) result }
{
    let mut all = Vec::new(alloc);
    for b in 0..footer.buckets.len() {
        let more = match read_entries_of(alloc, reader, footer, number, base, b) {
            Ok(more) => more,
            Err(fault) => return Err(fault),
        };
        match push_based(&mut all, &more, base) {
            Ok(()) => {}
            Err(_) => return Err(ReadFault::Memory),
        }
    }
    Ok(all)
}

/// All entries of the file in the order of their keys, by one read for each bucket.
///
/// # Errors
/// `Damaged` tells a damaged bucket, as `probe` does; where none is, the footer, with `Form`, if it tells another number of
/// entries than they have. `StoreFault` where the reader counted a fault; `Memory`.
pub fn entries<R: SealedReader>(
    alloc: Global,
    file: &mut IndexFile<R>,
) -> Result<Vec<(KeyBytes, Option<Place>)>, ReadFault>
    ensures level { IfOk result (λ all. (level : Level) → HasLevel file.old.base file.old.footer (R.view file.old.reader) level → all.items ≡ entries level) }
    ensures rise { IfOk result (λ all. T (is_sorted (slice_cmp nat_cmp) all.items)) }

    // Of any file, what all its buckets have. No damaged one is passed over.
    ensures listed { IfOk result (λ all. ReadsAs file.old.base file.old.footer (R.view file.old.reader) (from_sorted all.items)) }
    ensures damaged { IfErr result (λ e. OnDamage e (IsFileDamage file.old.base file.old.footer file.old.number (R.view file.old.reader))) }
    ensures intact { IfErr result (λ e. TellsDamage e → (level : Level) → HasLevel file.old.base file.old.footer (R.view file.old.reader) level → ⊥) }
    ensures reading { Reading (length file.old.footer.buckets) (R.view file.old.reader) (R.view file.new.reader) result }
    ensures number { file.new.number ≡ file.old.number }
    ensures base { file.new.base ≡ file.old.base }
    ensures footer { file.new.footer ≡ file.old.footer }
{
    let number = file.number;
    let base = file.base;
    let mut all = match gather(alloc, &mut file.reader, &file.footer, number, base) {
        Ok(all) => all,
        Err(fault) => return Err(fault),
    };
    if all.len() as u64 != file.footer.entries {
        let fault = PartFault::Damaged(Shown::Form);
        return Err(fault_of(number, Part::Footer, fault));
    }
    all.sort_unstable_by(|a, b| a.0.cmp(&b.0));
    Ok(all)
}
