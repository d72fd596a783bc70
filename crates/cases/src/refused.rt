// Cases of calls that are refused.
ghost use Rattle.cases.specs.Refused.{RefusalCasesAgree, UnchangedCasesAgree, CheckCasesAgree};

// Each call of the table is refused, or taken, as it says.
pub fn refusal_cases_agree()
    ensures { RefusalCasesAgree }
{}

// What follows a refused call is answered as if it had not been made.
pub fn unchanged_cases_agree()
    ensures { UnchangedCasesAgree }
{}

// Where two refusals apply, or a refusal and a law, the first in checking order is told.
pub fn check_cases_agree()
    ensures { CheckCasesAgree }
{}
