// What holds in every history of a lawful table, accepted or not, as theorems.
ghost use Rattle.model.specs.HistoryLaws.{LevelKept, DrawsCovered, MostUrgentFirst, WaitsOnlyIfShort, RunsOnlyIfPaid};
ghost use Rattle.model.specs.HistoryLaws.{IdleOnlyIfNone, OpenInTime, OneOpenJob, ReleasedIsClosedAndOpen};
ghost use Rattle.model.specs.HistoryLaws.{FinishedAreClosed, ResponsesByDeadline, NeverShort};
ghost use Rattle.model.specs.ScopeLaws.{SomeHistory, SlotsGoOn, RoomForTasks, OneDrive};

// Every lawful table has a history, and it can go on to the last clock; there is room for all its tasks.
pub fn history_laws()
    ensures some { SomeHistory }
    ensures lasts { SlotsGoOn }
    ensures room { RoomForTasks }
{}

// Orders and amounts settle marks and state.
pub fn order_laws()
    ensures { OneDrive }
{}

// The level stays between floor and cap, and no draw passes what is there above the floor.
pub fn store_laws()
    ensures kept { LevelKept }
    ensures covered { DrawsCovered }
{}

// The most urgent open job runs if it is paid for, else the node waits for it; without an open job it is idle.
pub fn slot_laws()
    ensures first { MostUrgentFirst }
    ensures waits { WaitsOnlyIfShort }
    ensures runs { RunsOnlyIfPaid }
    ensures idle { IdleOnlyIfNone }
{}

// A task has at most one open job, and every job is open or closed.
pub fn job_laws()
    ensures timed { OpenInTime }
    ensures single { OneOpenJob }
    ensures counted { ReleasedIsClosedAndOpen }
    ensures finished { FinishedAreClosed }
{}

// No response passes the deadline.
pub fn response_laws()
    ensures { ResponsesByDeadline }
{}

// No slots are refused for a low promise.
pub fn promise_laws()
    ensures { NeverShort }
{}
