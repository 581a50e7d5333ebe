ghost use Rattle.std.specs.Prelude.{◌≡◌, ◌+◌, ◌-◌, ◌^◌, ◌<◌, ◌≤◌, ◌++◌, [], Contains, min, length, take};
ghost use Rattle.dev_traits.specs.Streams.{PutWithin, PutCause};

use dev_traits::{Put, Sink};
use std::alloc::Global;

/// A sink that keeps what is put into it, at most so many bytes at a time, and fails at the listed puts, counted from
/// 1.
///
/// A put for which memory is wanting fails, too.
#[derive(Drop)]
pub struct MemSink {
    written: Vec<u8>,
    most: usize,
    fails: Vec<u64>,
    puts: u64,
    faults: u64,
    ghost takes_some: { 0 < most },
}

impl MemSink {
    ghost use Rattle.dev_memory.specs.Sinks.{held_by, faults_of, puts_of, most_of, fails_of};

    /// A sink that holds nothing.
    pub fn new(alloc: Global, most: usize, fails: Vec<u64>) -> MemSink
        requires { 0 < most }
        ensures empty { held_by result ≡ [] }
        ensures most { most_of result ≡ most }
        ensures listed { fails_of result ≡ fails.items }
        ensures first { puts_of result ≡ 0 }
        ensures no_fault { faults_of result ≡ 0 }
    {
        MemSink {
            written: Vec::new(alloc),
            most,
            fails,
            puts: 0,
            faults: 0,
        }
    }

    /// The bytes that were put.
    pub fn written(&self) -> &[u8]
        ensures { result.now ≡ held_by self.now }
    {
        self.written.as_slice()
    }
}

impl Sink for MemSink {
    ghost use Rattle.std.specs.Prelude.{Some};
    ghost use Rattle.dev_memory.specs.Sinks.{held_by, faults_of, next_put, puts_of, most_of, fails_of, Keeps};

    ghost held = { λ sink. Some (held_by sink) };

    ghost faults = { faults_of };

    fn put(&mut self, piece: &[u8]) -> Put
        requires { 0 < length piece.now }
        ensures within { PutWithin (length piece.now) result }
        ensures bytes { Keeps self.old self.new piece.now result }
        ensures cause { PutCause (faults_of self.old) (faults_of self.new) result }
        ensures counted { puts_of self.new ≡ next_put self.old }
        ensures fails { fails_of self.new ≡ fails_of self.old }
        ensures most { most_of self.new ≡ most_of self.old }
        ensures listed { Contains (fails_of self.old) (next_put self.old) → result ≡ Put.Failed }
    {
        self.puts = self.puts.saturating_add(1);
        let size = piece.len().min(self.most);
        if self.fails.contains(&self.puts)
            || self.written.extend_from_slice(&piece[..size]).is_err()
        {
            self.faults = self.faults.saturating_add(1);
            return Put::Failed;
        }
        Put::Took(size)
    }
}
