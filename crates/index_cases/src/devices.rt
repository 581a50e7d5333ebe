ghost use Rattle.std.specs.Prelude.{◌≡◌, ◌-◌, ◌^◌, ◌≤◌, length, IsErrOf};
ghost use Rattle.dev_traits.specs.Causes.{HasDevCause};

use dev_traits::{DevError, Failed, FileMaker, Memory, SealedReader};
use std::alloc::Global;

/// A maker that keeps the bytes of its file, and fails at one of its calls, counted from 1.
#[derive(Drop)]
pub struct Keeper {
    bytes: Vec<u8>,
    is_started: bool,
    calls: u64,
    fails_at: u64,
    faults: u64,
}

impl Keeper {
    pub fn new(alloc: Global, fails_at: u64) -> Keeper {
        Keeper {
            bytes: Vec::new(alloc),
            is_started: false,
            calls: 0,
            fails_at,
            faults: 0,
        }
    }

    fn call(&mut self) -> Result<(), DevError>
        ensures started { self.new.is_started ≡ self.old.is_started }
        ensures never_absent { ¬ IsErrOf result DevError.Absent }
        ensures cause { HasDevCause self.old.faults self.new.faults result }
    {
        self.calls = self.calls.saturating_add(1);
        if self.calls == self.fails_at {
            self.faults = self.faults.saturating_add(1);
            return Err(DevError::Failed);
        }
        Ok(())
    }
}

// Contracts see no bytes of this maker.
impl FileMaker for Keeper {
    type Sealed = Vec<u8>;

    ghost use Rattle.std.specs.Prelude.{None};

    ghost view = { λ m. record { made = None; is_started = m.is_started; faults = m.faults } };

    ghost sealed_bytes = { λ _. None };

    fn faults(&self) -> u64 {
        self.faults
    }

    fn start(&mut self) -> Result<(), DevError> {
        self.call()?;
        self.bytes.clear();
        self.is_started = true;
        Ok(())
    }

    fn add(&mut self, piece: &[u8]) -> Result<(), DevError> {
        self.call()?;
        match self.bytes.extend_from_slice(piece) {
            Ok(()) => Ok(()),
            Err(_) => Err(DevError::Memory),
        }
    }

    fn seal(&mut self) -> Result<Vec<u8>, DevError> {
        self.call()?;
        self.is_started = false;
        match self.bytes.clone() {
            Ok(bytes) => Ok(bytes),
            Err(_) => Err(DevError::Memory),
        }
    }
}

/// A byte that is another one from a read on, counted from 1, as no sealed file has it.
#[derive(Clone, Copy, Drop)]
pub struct Turn {
    pub place: usize,
    pub value: u8,
    pub read: u64,
}

/// A reader of bytes in memory that counts its reads, and fails at one of them, counted from 1.
#[derive(Drop)]
pub struct Counter {
    bytes: Vec<u8>,
    turn: Option<Turn>,
    reads: u64,
    fails_at: u64,
    faults: u64,
    ghost short: { length bytes.items ≤ 2 ^ 44 },
    ghost counted: { reads ≤ 2 ^ 64 - 1 },
}

impl Counter {
    /// A reader of these bytes; of none where there are more than 2^44.
    pub fn new(alloc: Global, bytes: Vec<u8>, fails_at: u64) -> Counter {
        let bytes = if bytes.len() as u64 <= 1 << 44 {
            bytes
        } else {
            Vec::new(alloc)
        };
        Counter {
            bytes,
            turn: None,
            reads: 0,
            fails_at,
            faults: 0,
        }
    }

    /// Has one of its bytes change while it is read.
    pub fn turning(mut self, turn: Option<Turn>) -> Counter {
        self.turn = turn;
        self
    }

    /// How often it was read.
    pub fn reads(&self) -> u64 {
        self.reads
    }
}

// Gives the byte at a place another value, where there is one.
fn set_byte(bytes: &mut [u8], place: usize, value: u8) {
    if place < bytes.len() {
        bytes[place] = value;
    }
}

// Contracts see no bytes of this reader.
impl SealedReader for Counter {
    ghost use Rattle.std.specs.Prelude.{None, length};

    ghost view = { λ r. record { bytes = None; size = length r.bytes.items; faults = r.faults; reads = r.reads } };

    ghost size_is_told = { λ r bytes is. Prim.cc };

    ghost size_is_bounded = { λ r. r.short };

    ghost reads_are_bounded = { λ r. r.counted };

    fn faults(&self) -> u64 {
        self.faults
    }

    fn length(&self) -> u64 {
        self.bytes.len() as u64
    }

    fn read_at(&mut self, at: u64, into: &mut [u8]) -> Result<(), Failed> {
        self.reads = self.reads.saturating_add(1);
        if self.reads == self.fails_at {
            self.faults = self.faults.saturating_add(1);
            return Err(Failed);
        }
        let start = at as usize;
        into.copy_from_slice(&self.bytes[start..start + into.len()]);
        if let Some(Turn { place, value, read }) = self.turn {
            if self.reads >= read && place >= start {
                set_byte(into, place - start, value);
            }
        }
        Ok(())
    }

    fn another(&mut self) -> Result<Self, Memory> {
        let bytes = self.bytes.clone()?;
        self.reads = self.reads.saturating_add(1);
        Ok(Counter {
            bytes,
            turn: self.turn,
            reads: 0,
            fails_at: self.fails_at,
            faults: 0,
        })
    }
}
