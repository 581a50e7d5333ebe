ghost use Rattle.std.specs.Prelude.{◌^◌, ◌<◌, ◌≤◌};

use crate::current_files::CurrentFile;
use crate::span::Span;
use std::collections::BTreeMap;

/// What the records so far mean, as far as the next one is held against it: numbers, and the files of the current
/// version with their dead rows. Older versions aren't kept.
#[derive(Drop)]
pub struct Replay {
    pub(crate) edit: u64,
    pub(crate) floor: u64,
    pub(crate) current: u64,
    pub(crate) next_file: u64,
    // The rowsets of the current version, the oldest first.
    pub(crate) rowsets: Vec<Span>,
    pub(crate) files: BTreeMap<u64, CurrentFile>,
    ghost edits: { edit < 2 ^ 63 },
    ghost versions: { current < 2 ^ 63 },
    ghost order: { floor ≤ current },
    ghost numbers: { next_file < 2 ^ 63 },
}
