use dev_traits::FileMaker;
use gated_log::Framed;
use index_level0::{KeyBytes, Place};
use kept_versions::KeptVersion;
use segment_write::Made;

/// A change of the current version: new files, numbered from the state's next file number on; the
/// places of the rows that die, rising; and where keys stand from then on, or None where a key has
/// no row, in the order of their codes.
#[derive(Drop)]
pub struct Change<M: FileMaker> {
    pub files: Vec<Made<M>>,
    pub dead: Vec<Place>,
    pub index: Vec<(KeyBytes, Option<Place>)>,
}

/// A change for which all memory is taken: the next version, and the body of the record that tells it.
#[derive(Drop)]
pub struct Ready<M: FileMaker> {
    pub change: Change<M>,
    pub(crate) current: KeptVersion,
    pub(crate) body: Framed,
}
