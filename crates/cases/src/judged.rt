// Cases of ended epochs that are judged.
ghost use Rattle.cases.specs.Judged.{SpanCasesAgree, HomeCasesAgree, TurnCasesAgree, SettleCasesAgree};

// Law 27.
pub fn span_cases_agree()
    ensures { SpanCasesAgree }
{}

// Law 28.
pub fn home_cases_agree()
    ensures { HomeCasesAgree }
{}

// The order in which the waiting are judged.
pub fn turn_cases_agree()
    ensures { TurnCasesAgree }
{}

// What a settle judges, and what a close leaves.
pub fn settle_cases_agree()
    ensures { SettleCasesAgree }
{}
