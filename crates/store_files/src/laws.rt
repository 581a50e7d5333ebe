ghost use Rattle.store_files.specs.Indexes.{CodesFindRows, LiveAreMoved};

/// The codes and places of the live rows of a version's files make its index.
pub fn live_rows_make_index()
    ensures moved { LiveAreMoved }
    ensures found { CodesFindRows }
{}
