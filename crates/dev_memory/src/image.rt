ghost use Rattle.std.specs.Prelude.{◌≡◌, ◌↔◌, ◌+◌, ◌≤◌, ◌∷◌, ◌++◌, [], length, vec_len, vec_capacity, IfOk, IsTrue};
ghost use Rattle.std.specs.List.{list_all};
ghost use Rattle.dev_memory.specs.Images.{is_short_file, IsShort};
ghost use Rattle.dev_memory.specs.Disk.{is_short};

use dev_traits::{LONGEST, Memory};
use pk_values::Octets;
use std::alloc::Global;

/// What a crash may leave, as a value: the bytes of areas 0 to 2, and the adopted files by their numbers.
#[derive(Drop)]
pub struct Image {
    pub areas: Vec<Octets>,
    pub files: Vec<(u64, Octets)>,
}

fn is_short(bytes: &Octets) -> bool
    ensures { result ≡ is_short bytes.now }
{
    bytes.as_slice().len() as u64 <= LONGEST
}

fn are_short(areas: &[Octets]) -> bool
    ensures { result ≡ list_all is_short areas.now }
{
    areas.iter().all(|area| is_short(area))
}

fn have_short(files: &[(u64, Octets)]) -> bool
    ensures { result ≡ list_all is_short_file files.now }
{
    files.iter().all(|file| is_short(&file.1))
}

impl Image {
    /// Whether no area and no file has more than 2^44 bytes.
    pub fn is_short(&self) -> bool
        ensures { IsTrue result ↔ IsShort self.now }
    {
        are_short(&self.areas) && have_short(&self.files)
    }
}

// Puts bytes behind others, where there is room for them.
pub(crate) fn append(bytes: &mut Vec<u8>, piece: &[u8])
    requires { vec_len bytes.old + length piece.now ≤ vec_capacity bytes.old }
    ensures items { bytes.new.items ≡ bytes.old.items ++ piece.now }
    ensures len { vec_len bytes.new ≡ vec_len bytes.old + length piece.now }
    ensures capacity { vec_capacity bytes.old ≤ vec_capacity bytes.new }
{
    bytes.extend_from_slice(piece).unwrap();
}

// A list of three.
pub(crate) fn three(
    alloc: Global,
    first: Octets,
    second: Octets,
    third: Octets,
) -> Result<Vec<Octets>, Memory>
    ensures { IfOk result (λ all. all.items ≡ first ∷ second ∷ third ∷ []) }
{
    let mut all = Vec::new(alloc);
    all.push(first)?;
    all.push(second)?;
    all.push(third)?;
    Ok(all)
}
