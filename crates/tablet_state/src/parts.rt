use dev_traits::Store;
use gated_log::Log;
use kept_versions::{KeptVersion, KeyIndex};
use pk_values::Schema;
use segment_read::Segment;

/// What a state is opened with.
#[derive(Drop)]
pub struct StateParts<S: Store> {
    pub store: S,
    /// A maker of the store.
    pub maker: S::Maker,
    /// The log of the journal's area in force.
    pub log: Log,
    pub schema: Schema,
    /// The form of the store.
    pub form: u8,
    /// The epoch of the journal.
    pub epoch: u64,
    /// The edit of its last record.
    pub edit: u64,
    /// A number above all file numbers that were told.
    pub next_file: u64,
    /// The number of the first version that is kept.
    pub floor: u64,
    /// The versions from the floor on, but for the current one.
    pub older: Vec<KeptVersion>,
    pub current: KeptVersion,
    /// A segment of each file that a kept version names, in the order of their numbers.
    pub segments: Vec<Segment<S::Reader>>,
    /// Where the keys of the current version stand.
    pub index: KeyIndex,
}
