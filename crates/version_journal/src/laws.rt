//! What holds of images. Each function states laws and does nothing when it is called.

ghost use Rattle.version_journal.specs.Reading.{DamagedSaysNothing, SaysOne};
ghost use Rattle.version_journal.specs.Laws.{AppendIsAStep, AreaIsTold, BlankingKeeps, CheckpointKeeps, EpochIsTold, ImageMeansOne, LogsTellMeaning, OneLog};

/// Which area is in force.
pub fn areas()
    ensures log { OneLog }
    ensures epoch { EpochIsTold }
    ensures area { AreaIsTold }
    ensures told { LogsTellMeaning }
{}

/// An image means one thing.
pub fn images()
    ensures { ImageMeansOne }
{}

/// What an image means at each moment of a commit.
pub fn moments()
    ensures append { AppendIsAStep }
    ensures blank { BlankingKeeps }
    ensures checkpoint { CheckpointKeeps }
{}

/// What a damaged image says, and that an image says one thing.
pub fn damages()
    ensures one { SaysOne }
    ensures nothing { DamagedSaysNothing }
{}
