ghost use Rattle.std.specs.Prelude.{◌≡◌, ◌++◌, ◌^◌, ◌≤◌, [], ℕ, List, Some, IfOk, IsTrue, length};
ghost use Rattle.std.specs.Arc.{arc_value};
ghost use Rattle.dev_memory.specs.Reader.{IsNewOver, fails_of};
ghost use Rattle.dev_traits.specs.Maker.{MakerView};

use crate::faults::{Listed, strikes};
use crate::{MemReader, SharedBytes};
use dev_traits::{DevError, FileMaker, LONGEST, Memory};
use std::alloc::Global;
use std::mem;

/// A file that is made, with a first reader, so that adopting it takes no memory.
#[derive(Drop)]
pub struct MemSealed {
    pub(crate) file: SharedBytes,
    pub(crate) reader: MemReader,
    ghost is_new: { IsNewOver file reader },
    ghost short: { length file ≤ 2 ^ 44 },
}

/// A maker of files in memory, which fails at the listed calls, counted from 1.
#[derive(Drop)]
pub struct MemMaker {
    alloc: Global,
    fails: Listed,
    reader_fails: Listed,
    count: u64,
    bytes: Vec<u8>,
    is_started: bool,
    faults: u64,
    ghost short: { length bytes.items ≤ 2 ^ 44 },
}

impl MemMaker {
    ghost use Rattle.dev_memory.specs.Maker.{faults_of, ListsFrom};

    pub(crate) fn new(alloc: Global, fails: Listed, reader_fails: Listed) -> MemMaker
        ensures faults { faults_of result ≡ 0 }
        ensures listed { ListsFrom (arc_value fails).items (arc_value reader_fails).items result }
    {
        MemMaker {
            alloc,
            fails,
            reader_fails,
            count: 0,
            bytes: Vec::new(alloc),
            is_started: false,
            faults: 0,
        }
    }
}

// A sealed file with these bytes.
fn sealed(alloc: Global, bytes: Vec<u8>, fails: &Listed) -> Result<MemSealed, Memory>
    requires { length bytes.items ≤ 2 ^ 44 }
    ensures file { IfOk result (λ sealed. sealed.file ≡ bytes.items) }
    ensures listed { IfOk result (λ sealed. fails_of sealed.reader ≡ (arc_value fails.now).items) }
{
    let file = SharedBytes::new(alloc, bytes)?;
    let reader = MemReader::open(&file, fails)?;
    Ok(MemSealed { file, reader })
}

impl FileMaker for MemMaker {
    ghost use Rattle.std.specs.Prelude.{◌+◌, ◌<◌, is_some, OnOk, OnErr, IsErrOf, IsFalse};
    ghost use Rattle.std.specs.Option.{option_map};
    ghost use Rattle.dev_traits.specs.Causes.{HasDevCause};
    ghost use Rattle.dev_memory.specs.Maker.{maker_view, made_len, reader_fails_of, sealed_fails_of, FailsOnly};
    ghost use Rattle.dev_memory.specs.Maker.{SameUnderWay, HasNoFile};

    type Sealed = MemSealed;

    ghost view = { λ m. record { made = Some m.bytes.items; is_started = m.is_started; faults = m.faults } };

    ghost sealed_bytes = { λ s. Some s.file };

    fn faults(&self) -> u64 {
        self.faults
    }

    fn start(&mut self) -> Result<(), DevError>
        ensures fails { FailsOnly ⊥ self.old self.new result }
        ensures kept { OnErr result (SameUnderWay self.old self.new) }
        // As the trait says.
        ensures started { OnOk result (IsTrue (maker_view self.new).is_started) }
        ensures empty { OnOk result ((maker_view self.new).made ≡ option_map (λ _. []) (maker_view self.old).made) }
        ensures tells { is_some (maker_view self.new).made ≡ is_some (maker_view self.old).made }
        ensures never_absent { ¬ IsErrOf result DevError.Absent }
        ensures cause { HasDevCause (maker_view self.old).faults (maker_view self.new).faults result }
    {
        if strikes(&self.fails, None, &mut self.count, &mut self.faults) {
            return Err(DevError::Failed);
        }
        self.bytes.clear();
        self.is_started = true;
        Ok(())
    }

    fn add(&mut self, piece: &[u8]) -> Result<(), DevError>
        requires { IsTrue (maker_view self.old).is_started }
        ensures fails { FailsOnly (2 ^ 44 < made_len self.old + length piece.now) self.old self.new result }
        ensures kept { OnErr result (SameUnderWay self.old self.new) }
        // As the trait says.
        ensures started { OnOk result (IsTrue (maker_view self.new).is_started) }
        ensures added { OnOk result ((maker_view self.new).made ≡ option_map (λ made. made ++ piece.now)
            (maker_view self.old).made) }
        ensures bound { OnOk result ((made : List ℕ) → (maker_view self.new).made ≡ Some made → length made ≤ 2 ^ 44) }
        ensures tells { is_some (maker_view self.new).made ≡ is_some (maker_view self.old).made }
        ensures never_absent { ¬ IsErrOf result DevError.Absent }
        ensures cause { HasDevCause (maker_view self.old).faults (maker_view self.new).faults result }
    {
        if strikes(&self.fails, None, &mut self.count, &mut self.faults) {
            return Err(DevError::Failed);
        }
        if piece.len() as u64 > LONGEST - self.bytes.len() as u64 {
            self.faults = self.faults.saturating_add(1);
            return Err(DevError::Failed);
        }
        match self.bytes.extend_from_slice(piece) {
            Ok(()) => Ok(()),
            Err(_) => Err(DevError::Memory),
        }
    }

    fn seal(&mut self) -> Result<MemSealed, DevError>
        requires { IsTrue (maker_view self.old).is_started }
        ensures fails { FailsOnly ⊥ self.old self.new result }
        ensures listed { IfOk result (λ sealed. sealed_fails_of sealed ≡ reader_fails_of self.old) }
        ensures kept { IsErrOf result DevError.Failed → SameUnderWay self.old self.new }
        ensures dropped { IsErrOf result DevError.Memory → HasNoFile self.new }
        ensures ended { OnOk result (HasNoFile self.new) }
        // As the trait says.
        ensures sealed { IfOk result (λ sealed. Some sealed.file ≡ (maker_view self.old).made) }
        ensures closed { OnOk result (IsFalse (maker_view self.new).is_started) }
        ensures tells { is_some (maker_view self.new).made ≡ is_some (maker_view self.old).made }
        ensures never_absent { ¬ IsErrOf result DevError.Absent }
        ensures cause { HasDevCause (maker_view self.old).faults (maker_view self.new).faults result }
    {
        if strikes(&self.fails, None, &mut self.count, &mut self.faults) {
            return Err(DevError::Failed);
        }
        let bytes = mem::replace(&mut self.bytes, Vec::new(self.alloc));
        self.is_started = false;
        match sealed(self.alloc, bytes, &self.reader_fails) {
            Ok(sealed) => Ok(sealed),
            Err(_) => Err(DevError::Memory),
        }
    }
}
