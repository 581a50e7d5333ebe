ghost use Rattle.std.specs.Prelude.{◌≡◌, ◌++◌, ℕ, List, true, IfOk, OnOk};
ghost use Rattle.std.specs.List.{list_all};
ghost use Rattle.dev_memory.specs.Disk.{entries_at};
ghost use Rattle.dev_memory.specs.Images.{is_short_file};

use crate::call::File;
use crate::kept::stands;
use dev_traits::Memory;
use pk_values::Octets;
use std::alloc::Global;

// A file as an image has it.
fn entry_of(alloc: Global, file: &File) -> Result<(u64, Octets), Memory>
    ensures entry { IfOk result (λ entry. entry ≡ (file.now.number, file.now.bytes)) }
    ensures short { IfOk result (λ entry. is_short_file entry ≡ true) }
{
    let bytes = Octets::from_slice(alloc, file.bytes.as_slice())?;
    Ok((file.number, bytes))
}

// The files that stood adopted after so many calls.
fn standing(alloc: Global, files: &[File], calls: u64) -> Result<Vec<(u64, Octets)>, Memory>
    ensures stand { IfOk result (λ left. left.items ≡ entries_at calls files.now) }
    ensures short { IfOk result (λ left. list_all is_short_file left.items ≡ true) }
{
    let mut left = Vec::new(alloc);
    for i in 0..files.len() {
        let file = &files[i];
        if stands(file, calls) {
            left.push(entry_of(alloc, file)?)?;
        }
    }
    Ok(left)
}

// Puts the other files behind them.
fn add_others(
    alloc: Global,
    left: &mut Vec<(u64, Octets)>,
    files: &[File],
    calls: u64,
) -> Result<(), Memory>
    requires { list_all is_short_file left.old.items ≡ true }
    ensures behind { OnOk result ((others : List (ℕ × List ℕ)) × (left.new.items ≡ left.old.items ++ others)) }
    ensures short { OnOk result (list_all is_short_file left.new.items ≡ true) }
{
    for i in 0..files.len() {
        let file = &files[i];
        if !stands(file, calls) {
            left.push(entry_of(alloc, file)?)?;
        }
    }
    Ok(())
}

/// The files that a crash leaves: those that stand adopted, and by an odd number also those that were forgotten.
pub fn files_left(
    alloc: Global,
    files: &[File],
    calls: u64,
    pick: u64,
) -> Result<Vec<(u64, Octets)>, Memory>
    ensures read { pick ≡ 0 → IfOk result (λ left. left.items ≡ entries_at calls files.now) }
    ensures kept { IfOk result (λ left. (others : List (ℕ × List ℕ))
        × (left.items ≡ entries_at calls files.now ++ others)) }
    ensures short { IfOk result (λ left. list_all is_short_file left.items ≡ true) }
{
    let mut left = standing(alloc, files, calls)?;
    if pick % 2 == 1 {
        add_others(alloc, &mut left, files, calls)?;
    }
    Ok(left)
}
