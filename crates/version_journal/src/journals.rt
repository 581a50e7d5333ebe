ghost use Rattle.std.specs.Prelude.{◌≡◌, ◌+◌, ◌^◌, ◌<◌, length};

use gated_log::{Framed, Log};

/// The journal of a store: the log in force, and the numbers of what is next.
#[derive(Drop)]
pub struct Journal {
    /// The log of the area in force.
    pub log: Log,
    /// The epoch of the area in force.
    pub epoch: u64,
    /// The edit of the next record: 1 above that of the last one, or 0 where there is none.
    pub edits: u64,
}

impl Journal {
    /// The journal of a log without a body.
    pub fn new(log: Log) -> Journal
        ensures log { result.log ≡ log }
        ensures epoch { result.epoch ≡ 0 }
        ensures edits { result.edits ≡ 0 }
    {
        Journal {
            log,
            epoch: 0,
            edits: 0,
        }
    }
}

/// A record that is ready to be committed: its body in a frame, and its edit.
#[derive(Drop)]
pub struct Draft {
    /// The body of the record.
    pub body: Framed,
    /// The record's edit, below 2^63.
    pub edit: u64,
    ghost in_range: { edit < 2 ^ 63 },
}

impl Draft {
    /// How many bytes its commit writes: 10 more than its body has.
    pub fn room(&self) -> u64
        ensures { result ≡ length self.now.body + 10 }
    {
        self.body.room()
    }
}
