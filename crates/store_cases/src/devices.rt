ghost use Rattle.std.specs.Prelude.{◌≡◌, IsErrOf};
ghost use Rattle.dev_traits.specs.Causes.{HasDevCause};

use dev_traits::{DevError, FileMaker};
use std::alloc::Global;

/// A maker that keeps the bytes of its file, and fails at one of its calls, counted from 1.
#[derive(Drop)]
pub struct Keeper {
    bytes: Vec<u8>,
    is_started: bool,
    calls: u64,
    fails_at: u64,
    faults: u64,
}

impl Keeper {
    pub fn new(alloc: Global, fails_at: u64) -> Keeper {
        Keeper {
            bytes: Vec::new(alloc),
            is_started: false,
            calls: 0,
            fails_at,
            faults: 0,
        }
    }

    fn call(&mut self) -> Result<(), DevError>
        ensures started { self.new.is_started ≡ self.old.is_started }
        ensures never_absent { ¬ IsErrOf result DevError.Absent }
        ensures cause { HasDevCause self.old.faults self.new.faults result }
    {
        self.calls = self.calls.saturating_add(1);
        if self.calls == self.fails_at {
            self.faults = self.faults.saturating_add(1);
            return Err(DevError::Failed);
        }
        Ok(())
    }
}

// Contracts see no bytes of this maker.
impl FileMaker for Keeper {
    type Sealed = Vec<u8>;

    ghost use Rattle.std.specs.Prelude.{None};

    ghost view = { λ m. record { made = None; is_started = m.is_started; faults = m.faults } };

    ghost sealed_bytes = { λ _. None };

    fn faults(&self) -> u64 {
        self.faults
    }

    fn start(&mut self) -> Result<(), DevError> {
        self.call()?;
        self.bytes.clear();
        self.is_started = true;
        Ok(())
    }

    fn add(&mut self, piece: &[u8]) -> Result<(), DevError> {
        self.call()?;
        match self.bytes.extend_from_slice(piece) {
            Ok(()) => Ok(()),
            Err(_) => Err(DevError::Memory),
        }
    }

    fn seal(&mut self) -> Result<Vec<u8>, DevError> {
        self.call()?;
        self.is_started = false;
        match self.bytes.clone() {
            Ok(bytes) => Ok(bytes),
            Err(_) => Err(DevError::Memory),
        }
    }
}
