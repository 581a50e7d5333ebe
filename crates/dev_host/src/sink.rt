ghost use Rattle.std.specs.Prelude.{◌≡◌};

use dev_traits::{Put, Sink};
use std::io::Print;

/// Standard output.
#[derive(Drop)]
pub struct HostSink<R: Print> {
    host: R,
    faults: u64,
}

impl<R: Print> HostSink<R> {
    /// A sink that has failed at no put.
    pub fn new(host: R) -> HostSink<R>
        ensures no_fault { result.faults ≡ 0 }
    {
        HostSink { host, faults: 0 }
    }
}

impl<R: Print> Sink for HostSink<R> {
    ghost use Rattle.std.specs.Prelude.{None};

    ghost held = { λ _. None };

    ghost faults = { λ sink. sink.faults };

    fn put(&mut self, piece: &[u8]) -> Put {
        match self.host.write_some(piece) {
            Ok(count) if count > 0 => Put::Took(count),
            _ => {
                self.faults = self.faults.saturating_add(1);
                Put::Failed
            }
        }
    }
}
