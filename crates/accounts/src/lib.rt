// The promises on the accounts of epochs. The contract of each function is a theorem over every trace that a watch can meet.
#![tactic(auto)]

ghost use Rattle.accounts.specs.Examples.{ExamplesStand};
ghost use Rattle.accounts.specs.Exact.{AccountsAreExact};
ghost use Rattle.accounts.specs.Homes.{HomesAreTold};
ghost use Rattle.accounts.specs.Rows.{CallsAddUp, RowsAreEpochs};
ghost use Rattle.accounts.specs.SafeTime.{SafeTimeNeverFalls};

// The counts of a watch are the sizes of the five accounts, each epoch begun is in one, and the judged were judged in order.
pub fn accounts_are_exact()
    ensures { AccountsAreExact }
{}

// Each row of a watch is that of exactly one epoch of its trace, and each notice number was handed out once.
pub fn rows_are_epochs()
    ensures { RowsAreEpochs }
{}

// What stands in an account was put there by a call, and not put on by a later one.
pub fn calls_add_up()
    ensures { CallsAddUp }
{}

// No call lowers the safe time.
pub fn safe_time_never_falls()
    ensures { SafeTimeNeverFalls }
{}

// The home of each place is its starting value, changed by the judged epochs of the place in turn; these stand apart.
pub fn homes_are_told()
    ensures { HomesAreTold }
{}

// There are traces with epochs in every account.
pub fn examples_stand()
    ensures { ExamplesStand }
{}
