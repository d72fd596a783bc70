// Cases that stand close to a limit.
ghost use Rattle.cases.specs.Near.{LimitCasesAgree};

// Each limit is reached, and not passed.
pub fn limit_cases_agree()
    ensures { LimitCasesAgree }
{}
