//! What holds of every report: functions that do nothing, each of which a clause gives its law.
ghost use Rattle.reports.specs.Bearing.{FaultsAreCounted, IntactEndsWell};
ghost use Rattle.reports.specs.Closings.{ClosedAtFault, FaultCloses};
ghost use Rattle.reports.specs.Endings.{EndingHasStatus, EndingIsTold, NoneIsWorse};
ghost use Rattle.reports.specs.Gathers.{AllPlacesSort, LaneComesInOrder, NumberedAreNotes};
ghost use Rattle.reports.specs.Lanes.{LanesMakeReport};
ghost use Rattle.reports.specs.Laws.{CallsAreOfTasks, OrderDetermines, ScriptDetermines};
ghost use Rattle.reports.specs.Reports.{GoesFollow, ReportsFollow, RunsReport};
ghost use Rattle.reports.specs.Notes.{NotesFollow, NotesMakeRun, NotesStay, TurnsStay};

/// How the ending of a run stands to its outcomes.
pub fn ends()
    ensures status { EndingHasStatus }
    ensures worst { NoneIsWorse }
    ensures told { EndingIsTold }
{}

/// What bears out the faults that outcomes tell.
pub fn bearing()
    ensures counted { FaultsAreCounted }
    ensures intact { IntactEndsWell }
{}

/// What each part of a job makes its call for.
pub fn parts()
    ensures { CallsAreOfTasks }
{}

/// What holds of a report whatever book its run began with.
pub fn follows()
    ensures reports { ReportsFollow }
    ensures goes { GoesFollow }
    ensures runs { RunsReport }
{}

/// What decides a report.
pub fn determinism()
    ensures order { OrderDetermines }
    ensures script { ScriptDetermines }
{}

/// How what lanes note of their jobs makes a run.
pub fn notes()
    ensures turns { TurnsStay }
    ensures stay { NotesStay }
    ensures follow { NotesFollow }
    ensures run { NotesMakeRun }
{}

/// How what lanes bring together is sorted.
pub fn gathering()
    ensures places { AllPlacesSort }
    ensures numbers { NumberedAreNotes }
    ensures lane { LaneComesInOrder }
{}

/// How what lanes hand back makes a report.
pub fn lanes()
    ensures { LanesMakeReport }
{}

/// Which turns are told that the tablet was closed.
pub fn closings()
    ensures told { ClosedAtFault }
    ensures later { FaultCloses }
{}
