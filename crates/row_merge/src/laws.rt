//! What holds of merges: a function that does nothing, which a clause gives its law.
ghost use Rattle.row_merge.specs.Unions.{MergeGivesMap};

/// The merge of lists that rise, of which no two have a key in common, has their rows in order.
pub fn merging()
    ensures { MergeGivesMap }
{}
