use dev_traits::OutsideFault;
use load_csv::LoadFault;
use pk_model::Reply;
use pk_values::Octets;

/// The part of a job that one turn is: the whole of it, its first or its last part, or its giving up.
#[derive(Clone, Copy)]
pub enum ItemPart {
    /// A job of one turn: a load, a scan, an expiry or a count.
    Whole,
    /// The first turn of a job of two: a partial load looks up its keys, a compaction makes its plan.
    First,
    /// The last turn of a job of two.
    Last,
    /// A compaction gives its plan up.
    GaveUp,
}

/// A turn of a job.
#[derive(Clone, Copy)]
pub struct Item {
    /// The job's number in its script, from 1.
    pub job: u32,
    /// The part of the job that the turn is.
    pub part: ItemPart,
}

/// What became of a job.
#[derive(Drop)]
pub enum Outcome {
    /// The reply of its last turn. A `Closed` tells the position in the order, from 1, of the item that closed the state.
    Turn(Reply),
    /// The rows that a scan found.
    Rows {
        /// The version that it opened.
        version: u64,
        /// How many rows that version has.
        count: u64,
        /// The rows in the order of their keys, as `put_rows` writes them.
        text: Octets,
    },
    /// Its file was refused, or memory was wanting to read it, so it had no turn.
    Load(LoadFault),
    /// A fault outside a turn ended it, as of the maker of its files or of a reader of a version.
    Outside(OutsideFault),
    /// It was not begun.
    NotRun,
}
