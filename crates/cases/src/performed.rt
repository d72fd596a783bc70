// Cases of operations that perform.
ghost use Rattle.cases.specs.Performed.{PlaceCasesAgree, OrderCasesAgree, LeaveCasesAgree, ValueCasesAgree};

// Law 21: what it is broken by, which operation it names, and what it goes before.
pub fn place_cases_agree()
    ensures { PlaceCasesAgree }
{}

// Law 22: the same.
pub fn order_cases_agree()
    ensures { OrderCasesAgree }
{}

// Law 23: the same.
pub fn leave_cases_agree()
    ensures { LeaveCasesAgree }
{}

// Law 24, and where a load has its value from.
pub fn value_cases_agree()
    ensures { ValueCasesAgree }
{}
