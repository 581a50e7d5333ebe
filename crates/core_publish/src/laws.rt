//! What a prepared load is ready for. The function does nothing when it is called.
ghost use Rattle.core_publish.specs.Publication.{AllAreWritten, EntriesAreInFour, EntriesAreMoves, PreparedIsReady};

/// A prepared load can be published over any map and any index, whatever numbers its files get.
pub fn prepared_loads()
    ensures written { AllAreWritten }
    ensures ready { PreparedIsReady }
    ensures entries { EntriesAreMoves }
    ensures few { EntriesAreInFour }
{}
