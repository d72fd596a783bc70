// Cases of what a watch holds.
ghost use Rattle.cases.specs.Held.{AccountCasesAgree, KeptCasesAgree, FreeCasesAgree};

// The accounts and the verdict after calls.
pub fn account_cases_agree()
    ensures { AccountCasesAgree }
{}

// The homes after calls.
pub fn kept_cases_agree()
    ensures { KeptCasesAgree }
{}

// The free places after calls.
pub fn free_cases_agree()
    ensures { FreeCasesAgree }
{}
