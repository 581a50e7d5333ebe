ghost use Rattle.std.specs.Prelude.{◌≡◌, ◌+◌, ◌-◌, ◌^◌, ◌≤◌, min};
ghost use Rattle.dev_host.specs.Silent.{silent_reader};

use crate::disk::read_from;
use dev_traits::{Failed, Memory, SealedReader};
use std::rt::Files;

/// A reader of a file of the host, which opens its path at each read.
#[derive(Drop)]
pub struct HostReader<R: Files> {
    host: R,
    path: String,
    size: u64,
    faults: u64,
    reads: u64,
    ghost short: { size ≤ 2 ^ 44 },
    ghost counted: { reads ≤ 2 ^ 64 - 1 },
}

impl<R: Files + Clone + Drop> HostReader<R> {
    pub(crate) fn new(host: R, path: String, size: u64) -> HostReader<R>
        requires { size ≤ 2 ^ 44 }
        ensures faults { result.faults ≡ 0 }
        ensures reads { result.reads ≡ 0 }
    {
        HostReader {
            host,
            path,
            size,
            faults: 0,
            reads: 0,
        }
    }
}

impl<R: Files + Clone + Drop> SealedReader for HostReader<R> {
    ghost view = { λ r. silent_reader r.size r.faults r.reads };

    ghost size_is_told = { λ r bytes is. Prim.cc };

    ghost size_is_bounded = { λ r. r.short };

    ghost reads_are_bounded = { λ r. r.counted };

    fn faults(&self) -> u64 {
        self.faults
    }

    fn length(&self) -> u64 {
        self.size
    }

    fn read_at(&mut self, at: u64, into: &mut [u8]) -> Result<(), Failed> {
        self.reads = self.reads.saturating_add(1);
        match read_from(&self.host, &self.path, at, into) {
            Ok(()) => Ok(()),
            Err(_) => {
                self.faults = self.faults.saturating_add(1);
                Err(Failed)
            }
        }
    }

    fn another(&mut self) -> Result<Self, Memory> {
        let host = self.host.clone()?;
        let path = self.path.clone()?;
        self.reads = self.reads.saturating_add(1);
        Ok(HostReader {
            host,
            path,
            size: self.size,
            faults: 0,
            reads: 0,
        })
    }
}
