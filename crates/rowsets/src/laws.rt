//! What holds of rowsets: functions that do nothing, each of which a clause gives its law.
ghost use Rattle.rowsets.specs.Marks.{UnionHasBoth, UnionRises, OneRisingList};
ghost use Rattle.rowsets.specs.Loads.{LoadsKeepShortKeys, PartsMakeLoad, ResultsByKey, NoWriteNoRow, LiveRowsFit, RowsetsRise, WholeLoadsAskNothing, WholeLoadResults};
ghost use Rattle.rowsets.specs.Plans.{BeginningHasPlan, PublishingKeepsPlan, PlanSays, OthersKeepPlan};
ghost use Rattle.rowsets.specs.Ending.{OneMapSameRows, EndingStands, EndingKeepsIndex, IndexTellsLate, IndexFindsLate, RowsetsAreCounted, LeavingIsWrong, DroppingIsWrong};
ghost use Rattle.rowsets.specs.Indexing.{PlacesAreOldRows, MovesLead, MovesMakeIndex, OneIndex, PlacesMakeIndex, KeptMovesMakeIndex, StoredMovesMoveIndex, MapStoresMoves, LevelsStoreMoves, LevelsGiveWay};
ghost use Rattle.rowsets.specs.Merging.{WrittenAreLive, WrittenStand, WrittenAreMoved, WholeLoadWritten, NumberedAreWritten, LowerFilesStay, ResultsWritten, NumberedAreNew};
ghost use Rattle.rowsets.specs.Books.{NewBookIsHeld, KeptAreHeld, AsManyVersions, AnswersDecide, PlanIsHeld, ChangeIsHeld, LoadIsHeld, BeginIsHeld, GivingUpIsHeld, EndIsHeld, ExpiryIsHeld, OthersAreFree, WideningIsHeld, WideRowsAreSame};
ghost use Rattle.rowsets.specs.Scans.{VersionIsListed, ListedAreCounted, PieceIsCounted, ScanGivesFirst, ScanGivesAll};
ghost use Rattle.rowsets.specs.Steps.{MarkedBySame, EachWholeLoadIsReady, ReadyIsHeld, WrittenIsMerge, MergeIsHeld, OnlyMergedMarked, SamePlaceSameRow, KeyCodesTell};
ghost use Rattle.rowsets.specs.Example.{RightEnd, TwiceAtWrongEnd, LostAtWrongEnd};
ghost use Rattle.rowsets.specs.Wrong.{MarkingIsWrong, NotMarkingIsWrong, ForgettingIsWrong};
ghost use Rattle.rowsets.specs.Changes.{PublishingStands, OthersStay, OneMap};

/// Dead rows are a rising list.
pub fn marking()
    ensures both { UnionHasBoth }
    ensures rises { UnionRises }
    ensures one { OneRisingList }
    ensures by_places { MarkedBySame }
    ensures merged { OnlyMergedMarked }
{}

/// A change that is published makes of a version the version after it, and its index stays exact.
pub fn publishing()
    ensures stands { PublishingStands }
    ensures others { OthersStay }
    ensures one_map { OneMap }
{}

/// When a change is that of a load: of each over one map, and of a whole one over every map.
pub fn loading()
    ensures parts { PartsMakeLoad }
    ensures by_key { ResultsByKey }
    ensures no_row { NoWriteNoRow }
    ensures fit { LiveRowsFit }
    ensures rowsets { RowsetsRise }
    ensures asks_nothing { WholeLoadsAskNothing }
    ensures whole { WholeLoadResults }
    ensures short_keys { LoadsKeepShortKeys }
{}

/// While a compaction is under way, what is published keeps what its end needs.
pub fn planning()
    ensures begins { BeginningHasPlan }
    ensures keeps { PublishingKeepsPlan }
    ensures says { PlanSays }
    ensures others { OthersKeepPlan }
{}

/// The end of a compaction leaves the map as it was, and the index exact.
pub fn ending()
    ensures same_rows { OneMapSameRows }
    ensures stands { EndingStands }
    ensures index { EndingKeepsIndex }
    ensures told { IndexTellsLate }
    ensures found { IndexFindsLate }
    ensures rowsets { RowsetsAreCounted }
{}

/// What stands in files that a load or a merge wrote.
pub fn writing()
    ensures live { WrittenAreLive }
    ensures stand { WrittenStand }
    ensures moved { WrittenAreMoved }
    ensures whole_load { WholeLoadWritten }
    ensures results { ResultsWritten }
    ensures numbered { NumberedAreWritten }
    ensures lower { LowerFilesStay }
    ensures new_files { NumberedAreNew }
{}

/// How an index stays exact: by the moves of keys, over one map from codes, and over levels of such maps.
pub fn indexing()
    ensures old_rows { PlacesAreOldRows }
    ensures lead { MovesLead }
    ensures moves { MovesMakeIndex }
    ensures one_index { OneIndex }
    ensures all_places { PlacesMakeIndex }
    ensures kept { KeptMovesMakeIndex }
    ensures stored { StoredMovesMoveIndex }
    ensures one_map { MapStoresMoves }
    ensures levels { LevelsStoreMoves }
    ensures give_way { LevelsGiveWay }
    ensures codes { KeyCodesTell }
    ensures same_place { SamePlaceSameRow }
{}

/// What is held stands for the book, and goes on to do so by each call's change.
pub fn holding()
    ensures new_book { NewBookIsHeld }
    ensures kept { KeptAreHeld }
    ensures as_many { AsManyVersions }
    ensures plan { PlanIsHeld }
    ensures answers { AnswersDecide }
    ensures change { ChangeIsHeld }
    ensures load { LoadIsHeld }
    ensures begin { BeginIsHeld }
    ensures giving_up { GivingUpIsHeld }
    ensures end { EndIsHeld }
    ensures expiry { ExpiryIsHeld }
    ensures others { OthersAreFree }
{}

/// What is held once a column was added.
pub fn widening()
    ensures held { WideningIsHeld }
    ensures same_rows { WideRowsAreSame }
{}

/// What a snapshot has to read, how many rows it has, and what a scan gives.
pub fn scanning()
    ensures listed { VersionIsListed }
    ensures counted { ListedAreCounted }
    ensures piece { PieceIsCounted }
    ensures first { ScanGivesFirst }
    ensures all { ScanGivesAll }
{}

/// What the calls of a tablet do is such a change.
pub fn stepping()
    ensures whole_loads { EachWholeLoadIsReady }
    ensures ready { ReadyIsHeld }
    ensures merge { WrittenIsMerge }
    ensures end { MergeIsHeld }
{}

/// An end that is right, and two that are not.
pub fn example()
    ensures right { RightEnd }
    ensures twice { TwiceAtWrongEnd }
    ensures lost { LostAtWrongEnd }
{}

/// Changes that are wrong: a row marked in a version that had it live, an old row left beside its new one, a file forgotten that is named, a late row left live, a row dropped.
pub fn wrong_changes()
    ensures marking { MarkingIsWrong }
    ensures not_marking { NotMarkingIsWrong }
    ensures forgetting { ForgettingIsWrong }
    ensures leaving { LeavingIsWrong }
    ensures dropping { DroppingIsWrong }
{}
