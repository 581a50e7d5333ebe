ghost use Rattle.std.specs.Prelude.{◌≡◌};

use dev_traits::{Asked, Inputs, Source, Taken};
use std::alloc::Global;
use std::fs::File;
use std::io::{ErrorKind, Read};
use std::rt::Files;

/// An open file of the host, read from its first byte on.
#[derive(Drop)]
pub struct HostSource<R: Files> {
    file: R::File,
    faults: u64,
}

impl<R: Files> Source for HostSource<R> {
    ghost use Rattle.std.specs.Prelude.{None};

    ghost left = { λ _. None };

    ghost faults = { λ src. src.faults };

    fn take(&mut self, into: &mut [u8]) -> Taken {
        match self.file.read(into) {
            Ok(0) => Taken::End,
            Ok(count) => Taken::Bytes(count),
            Err(_) => {
                self.faults = self.faults.saturating_add(1);
                Taken::Failed
            }
        }
    }
}

/// The files of the host, by their paths.
#[derive(Drop)]
pub struct HostInputs<R: Files> {
    host: R,
    faults: u64,
}

impl<R: Files> HostInputs<R> {
    /// Inputs that have failed at no ask.
    pub fn new(host: R) -> HostInputs<R>
        ensures no_fault { result.faults ≡ 0 }
    {
        HostInputs { host, faults: 0 }
    }
}

impl<R: Files> Inputs for HostInputs<R> {
    ghost use Rattle.std.specs.Prelude.{None};

    type Src = HostSource<R>;

    ghost files = { λ _. None };

    ghost faults = { λ inputs. inputs.faults };

    fn ask(&mut self, _alloc: Global, name: &str) -> Asked<HostSource<R>> {
        match File::open(&self.host, name) {
            Ok(file) => Asked::Got(HostSource { file, faults: 0 }),
            Err(error) => match error.kind() {
                ErrorKind::NotFound => Asked::Absent,
                ErrorKind::OutOfMemory => Asked::Memory,
                _ => {
                    self.faults = self.faults.saturating_add(1);
                    Asked::Failed
                }
            },
        }
    }

    fn give_back(&mut self, src: HostSource<R>) {
        self.faults = self.faults.saturating_add(src.faults);
    }
}
