ghost use Rattle.std.specs.Prelude.{◌≡◌, ◌+◌, ◌-◌, ◌^◌, ◌<◌, ◌≤◌, ◌↔◌, [], ◌∷◌, ◌++◌, option_map, Some, IfOk, IfSome};
ghost use Rattle.std.specs.Prelude.{take, drop, length, Contains, min};
ghost use Rattle.std.specs.Arc.{arc_value};
ghost use Rattle.std.specs.Ordering.{nat_cmp};
ghost use Rattle.std.specs.Cmp.Lexicographic.{slice_cmp};
ghost use Rattle.std.specs.FinMap.Entries.{find};
ghost use Rattle.dev_traits.specs.Streams.{Asks, AskCause, Takes, TakeWithin, TakeCause};
ghost use Rattle.dev_traits.specs.Causes.{Counts};
ghost use Rattle.dev_memory.specs.Texts.{text_in};

use crate::faults::Listed;
use dev_traits::{Asked, Inputs, Source, Taken};
use pk_values::Octets;
use std::alloc::{AllocError, Global};
use std::sync::Arc;

/// A source over bytes in memory, which fails at the takes that its inputs list. Its own takes are numbered on from
/// those before it.
#[derive(Drop)]
pub struct MemSource {
    files: Named,
    place: usize,
    at: usize,
    fails: Listed,
    takes_before: u64,
    takes: u64,
    faults: u64,
    ghost there: { place < length (arc_value files).items },
}

// Files with their names, which inputs and their sources share.
type Named = Arc<Vec<(Octets, Octets)>, Global>;

// Copies what fits of a text into a buffer, and tells how much.
fn fill(into: &mut [u8], text: &[u8]) -> usize
    ensures size { result ≡ min (length into.old) (length text.now) }
    ensures copied { take result into.new ≡ take result text.now }
{
    let size = into.len().min(text.len());
    into[..size].copy_from_slice(&text[..size]);
    size
}

impl Source for MemSource {
    ghost use Rattle.std.specs.Prelude.{Some};
    ghost use Rattle.dev_memory.specs.Inputs.{left_of, source_faults, TakesAs, Goes};

    ghost left = { λ src. Some (left_of src) };

    ghost faults = { source_faults };

    fn take(&mut self, into: &mut [u8]) -> Taken
        requires { 0 < length into.old }
        ensures within { TakeWithin (length into.old) result }
        ensures bytes { Takes (Some (left_of self.old)) (Some (left_of self.new)) into.new result }
        ensures cause { TakeCause (source_faults self.old) (source_faults self.new) result }
        ensures exactly { TakesAs self.old (length into.old) result }
        ensures goes { Goes self.old self.new }
    {
        self.takes = self.takes.saturating_add(1);
        let number = self.takes_before.saturating_add(self.takes);
        if self.fails.contains(&number) {
            self.faults = self.faults.saturating_add(1);
            return Taken::Failed;
        }
        let text = text_at(&self.files, self.place);
        if self.at >= text.len() {
            return Taken::End;
        }
        let size = fill(into, &text[self.at..]);
        self.at += size;
        Taken::Bytes(size)
    }
}

/// Inputs in memory: of each name the first file listed with it. They fail at the listed takes, and each ask fails
/// where 0 is listed.
///
/// Takes are numbered from 1. Those of a source are numbered on from all takes of the sources that were given back
/// before it was asked for.
#[derive(Drop)]
pub struct MemInputs {
    files: Named,
    fails: Listed,
    takes: u64,
    faults: u64,
}

impl MemInputs {
    ghost use Rattle.std.specs.FinMap.{from_entries};
    ghost use Rattle.dev_memory.specs.Inputs.{files_of, faults_of, takes_of, fails_of};

    /// Inputs of which none was asked for.
    pub fn new(
        alloc: Global,
        files: Vec<(Octets, Octets)>,
        fails: Vec<u64>,
    ) -> Result<MemInputs, AllocError>
        ensures files { IfOk result (λ inputs. files_of inputs ≡ from_entries files.items) }
        ensures listed { IfOk result (λ inputs. fails_of inputs ≡ fails.items) }
        ensures first { IfOk result (λ inputs. takes_of inputs ≡ 0) }
        ensures no_fault { IfOk result (λ inputs. faults_of inputs ≡ 0) }
    {
        Ok(MemInputs {
            files: Arc::new(alloc, files)?,
            fails: Arc::new(alloc, fails)?,
            takes: 0,
            faults: 0,
        })
    }
}

// The place of the first file with a name.
fn find_file(files: &[(Octets, Octets)], name: &[u8]) -> Option<usize>
    ensures found { option_map (text_in files.now) result ≡ find (slice_cmp nat_cmp) name.now files.now }
    ensures there { IfSome result (λ place. place < length files.now) }
{
    for i in 0..files.len() {
        if files[i].0.as_slice() == name {
            return Some(i);
        }
    }
    None
}

// The bytes of the file at a place.
fn text_at(files: &[(Octets, Octets)], place: usize) -> &[u8]
    requires { place < length files.now }
    ensures { result.now ≡ text_in files.now place }
{
    files[place].1.as_slice()
}

impl MemSource {
    ghost use Rattle.dev_memory.specs.Inputs.{left_of, source_before, source_fails, source_faults, source_takes};

    // A source of the file at a place, which shares the files and the list.
    pub(crate) fn open(
        files: &Named,
        place: usize,
        fails: &Listed,
        takes: u64,
    ) -> Result<MemSource, AllocError>
        requires { place < length (arc_value files.now).items }
        ensures left { IfOk result (λ src. left_of src ≡ text_in (arc_value files.now).items place) }
        ensures new { IfOk result (λ src. source_faults src ≡ 0) }
        ensures fails { IfOk result (λ src. source_fails src ≡ (arc_value fails.now).items) }
        ensures numbered { IfOk result (λ src. (source_before src ≡ takes) × (source_takes src ≡ 0)) }
    {
        let files = Arc::try_clone(files)?;
        let fails = Arc::try_clone(fails)?;
        Ok(MemSource {
            files,
            place,
            at: 0,
            fails,
            takes_before: takes,
            takes: 0,
            faults: 0,
        })
    }
}

impl Inputs for MemInputs {
    ghost use Rattle.std.specs.Prelude.{Some};
    ghost use Rattle.dev_memory.specs.Inputs.{files_of, faults_of, takes_of, fails_of, left_of, source_faults};
    ghost use Rattle.dev_memory.specs.Inputs.{source_takes, NumberedOn};

    type Src = MemSource;

    ghost files = { λ inputs. Some (files_of inputs) };

    ghost faults = { faults_of };

    fn ask(&mut self, _alloc: Global, name: &str) -> Asked<MemSource>
        ensures same { files_of self.new ≡ files_of self.old }
        ensures found { Asks (λ src. Some (left_of src)) source_faults (Some (files_of self.old)) name.now result }
        ensures cause { AskCause (faults_of self.old) (faults_of self.new) result }
        ensures exactly { result ≡ Asked.Failed ↔ Contains (fails_of self.old) 0 }
        ensures numbered { NumberedOn self.old result }
        ensures takes { takes_of self.new ≡ takes_of self.old }
        ensures fails { fails_of self.new ≡ fails_of self.old }
    {
        if self.fails.contains(&0) {
            self.faults = self.faults.saturating_add(1);
            return Asked::Failed;
        }
        match find_file(&self.files, name.as_bytes()) {
            Some(place) => match MemSource::open(&self.files, place, &self.fails, self.takes) {
                Ok(src) => Asked::Got(src),
                Err(_) => Asked::Memory,
            },
            None => Asked::Absent,
        }
    }

    fn give_back(&mut self, src: MemSource)
        ensures same { files_of self.new ≡ files_of self.old }
        ensures counts { Counts (source_faults src) (faults_of self.old) (faults_of self.new) }
        ensures takes { Counts (source_takes src) (takes_of self.old) (takes_of self.new) }
        ensures fails { fails_of self.new ≡ fails_of self.old }
    {
        self.takes = self.takes.saturating_add(src.takes);
        self.faults = self.faults.saturating_add(src.faults);
    }
}
