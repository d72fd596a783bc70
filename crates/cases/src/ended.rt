// Cases of epochs that end.
ghost use Rattle.cases.specs.Ended.{UseCasesAgree, EndCasesAgree};

// What sets the last use of an epoch.
pub fn use_cases_agree()
    ensures { UseCasesAgree }
{}

// Laws 25, 26 and 29.
pub fn end_cases_agree()
    ensures { EndCasesAgree }
{}
