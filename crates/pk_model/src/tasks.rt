/// What a job makes a call for. A load and an opening are each made for two ends, and what a device may answer in their
/// place goes by the end.
#[derive(Clone, Copy)]
pub enum Task {
    /// Publishes a load whose lines give every column.
    LoadWhole,
    /// Opens the current version and looks up in it the rows at the keys of a partial load.
    LookUp,
    /// Publishes a partial load, some time after its keys were looked up.
    PublishPartial,
    /// Opens a version for a scan, which reads it afterwards.
    OpenScan,
    /// Begins a compaction.
    Begin,
    /// Ends a compaction.
    End,
    /// Gives a compaction up.
    GiveUp,
    /// Drops the versions below a floor.
    Expire,
    /// Counts.
    Count,
}
