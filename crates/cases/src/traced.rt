// Cases of what a trace tells.
ghost use Rattle.cases.specs.Traced.{CleanCasesAgree, StartCasesAgree};

// A trace is clean once a close answered so.
pub fn clean_cases_agree()
    ensures { CleanCasesAgree }
{}

// A place starts with what was preset last.
pub fn start_cases_agree()
    ensures { StartCasesAgree }
{}
