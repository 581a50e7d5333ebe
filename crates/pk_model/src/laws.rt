//! What holds of every load, book and history: functions that do nothing, each of which a clause gives its law.
ghost use Rattle.pk_model.specs.Books.{new_book, FewVersions};
ghost use Rattle.pk_model.specs.Laws.{CarriedCells, ClosedStays, CurrentRows, DeletedThenNew, ElseOnlyTakes};
ghost use Rattle.pk_model.specs.Laws.{EndLeavesRows, ExpiryDrops, ExpiryKeepsVersion, FewStay, KeysRise};
ghost use Rattle.pk_model.specs.Laws.{LastLineActs, LawfulKeepsKeys, LegalGoesOn, LoadMakesOne, NewVersion};
ghost use Rattle.pk_model.specs.Laws.{NumbersAreFew, OlderStay, OpensKept, OneResultPerKey, OtherCells, OtherKeys};
ghost use Rattle.pk_model.specs.Laws.{PrefixIsLegal, RefusalsLeave, ReplayGoesOn, RowsTellKeys, WriteLeavesRow};
ghost use Rattle.pk_model.specs.LawfulRows.{CallsKeepRows, HistoriesKeepRows, LawfulLoadsKeepRows, ListedKeysFit};
ghost use Rattle.pk_model.specs.LawfulRows.{ListedRowsFit, NewBooksRowsAreLawful};
ghost use Rattle.pk_model.specs.Durable.{DeviceRepliesLeaveDurable, DurableGoesOn, DurableIsKept, DurableKeeps};
ghost use Rattle.pk_model.specs.Durable.{NewIsDurable, OthersLeaveDurable};
ghost use Rattle.pk_model.specs.Histories.{AnswersAreOwn, ChangesCloseNothing, FaultsAloneClose, LegalAppends};
ghost use Rattle.pk_model.specs.Histories.{NoDamageAfter, NoDamageAppends, NoDamageBefore, OwnReplyIsAnswer};
ghost use Rattle.pk_model.specs.Histories.{ReplyLeavesOneOfThree, RestIsLegal};
ghost use Rattle.pk_model.specs.Tasks.{EachCallHasTask, OthersAreAsWide, TaskRepliesMayCome, TasksAreNarrower};

/// A load line by line gives each key the result of its own lines.
pub fn one_result_per_key()
    ensures { OneResultPerKey }
{}

/// What a load does to single rows.
pub fn rows_of_a_load()
    ensures last_line { LastLineActs }
    ensures new_after_delete { DeletedThenNew }
    ensures other_keys { OtherKeys }
    ensures keys_first { LawfulKeepsKeys }
{}

/// What an upsert does to single cells.
pub fn cells_of_a_line()
    ensures carried { CarriedCells }
    ensures other { OtherCells }
{}

/// Which loads leave a row of their own.
pub fn loads_that_write()
    ensures row { WriteLeavesRow }
    ensures only_takes { ElseOnlyTakes }
{}

/// Which rows a table has.
pub fn rows_of_a_table()
    ensures keys_rise { KeysRise }
    ensures rows_tell_keys { RowsTellKeys }
{}

/// Which rows each version has after a call.
pub fn versions()
    ensures one_more { LoadMakesOne }
    ensures current { CurrentRows }
    ensures new { NewVersion }
    ensures older { OlderStay }
    ensures compaction { EndLeavesRows }
    ensures expiry { ExpiryDrops }
    ensures kept { ExpiryKeepsVersion }
    ensures opens { OpensKept }
{}

/// What holds of every history.
pub fn histories()
    ensures goes_on { ReplayGoesOn }
    ensures prefix { PrefixIsLegal }
    ensures legal { LegalGoesOn }
    ensures appends { LegalAppends }
    ensures rest { RestIsLegal }
    ensures closed { ClosedStays }
    ensures refusals { RefusalsLeave }
{}

/// How far the numbers of a book go.
pub fn numbers()
    ensures new_book { FewVersions new_book }
    ensures few_versions { FewStay }
    ensures counts { NumbersAreFew }
{}

/// What calls are made for, and which replies of a device come there.
pub fn tasks_of_calls()
    ensures each { EachCallHasTask }
    ensures narrower { TasksAreNarrower }
    ensures others { OthersAreAsWide }
    ensures replies { TaskRepliesMayCome }
{}

/// Whose replies stand in a history, and what each leaves.
pub fn replies()
    ensures own { AnswersAreOwn }
    ensures answer { OwnReplyIsAnswer }
    ensures after { ReplyLeavesOneOfThree }
    ensures changes { ChangesCloseNothing }
    ensures faults { FaultsAloneClose }
{}

/// Histories that tell of no damage.
pub fn undamaged_histories()
    ensures appends { NoDamageAppends }
    ensures before { NoDamageBefore }
    ensures rest { NoDamageAfter }
{}

/// What a crash keeps.
pub fn durable_books()
    ensures keeps { DurableKeeps }
    ensures exactly { DurableIsKept }
    ensures new { NewIsDurable }
    ensures device { DeviceRepliesLeaveDurable }
    ensures others { OthersLeaveDurable }
    ensures goes_on { DurableGoesOn }
{}

/// Rows stay lawful.
pub fn lawful_rows()
    ensures load { LawfulLoadsKeepRows }
    ensures new { NewBooksRowsAreLawful }
    ensures call { CallsKeepRows }
    ensures history { HistoriesKeepRows }
    ensures rows { ListedRowsFit }
    ensures keys { ListedKeysFit }
{}
