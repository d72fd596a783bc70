// Runs to a limit.
ghost use Rattle.cases.specs.Runs.{OpenRunAgrees, OwedRunAgrees, WaitingRunAgrees};

// Thirty-two epochs of a thread open, and no more.
pub fn open_run_agrees()
    ensures { OpenRunAgrees }
{}

// Thirty-two notices are owed, and no more.
pub fn owed_run_agrees()
    ensures { OwedRunAgrees }
{}

// A hundred and twenty-eight notices are waiting, and no more.
pub fn waiting_run_agrees()
    ensures { WaitingRunAgrees }
{}
