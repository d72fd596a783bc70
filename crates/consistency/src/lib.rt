// What the verdict of a watch promises, for every rule, every number of threads and every trace: each function stands for a theorem.
#![tactic(auto)]

ghost use Rattle.consistency.specs.Examples.{CallsAreFollowed, RecordsAreClean, RecordIsConvicted, CallIsRefused};
ghost use Rattle.consistency.specs.Promises.{OrderIsTotal, CleanIsConsistent, CloseIsConsistent, CleanKeepsPlaces, CleanCopiesAreLatest, CleanPerformsAll, RefusedChangesNothing, ConvictedNeverClean, OneCleanClose};

// What performed in a trace is ordered totally by time, then thread, then order of performing.
pub fn order_is_total()
    ensures { OrderIsTotal }
{}

// A trace in which a close answered clean is consistent under the watch's rule.
pub fn clean_is_consistent()
    ensures { CleanIsConsistent }
{}

// A close that answers clean makes the trace that ends with it consistent.
pub fn close_is_consistent()
    ensures { CloseIsConsistent }
{}

// In a clean trace a store comes after each earlier load or store of its thread to its place.
pub fn clean_keeps_places()
    ensures { CleanKeepsPlaces }
{}

// In a clean trace a load that read the copy has the value of the latest store before it in the order, else the starting value.
pub fn clean_copies_are_latest()
    ensures { CleanCopiesAreLatest }
{}

// In a clean trace every operation that a thread committed has performed, once.
pub fn clean_performs_all()
    ensures { CleanPerformsAll }
{}

// A refused call leaves the state as it was.
pub fn refused_changes_nothing()
    ensures { RefusedChangesNothing }
{}

// A trace with a conviction has no clean close.
pub fn convicted_never_clean()
    ensures { ConvictedNeverClean }
{}

// A trace has at most one clean close.
pub fn one_clean_close()
    ensures { OneCleanClose }
{}

// Every list of calls makes a trace that a watch has met.
pub fn calls_are_followed()
    ensures { CallsAreFollowed }
{}

// Three lists of calls end with a clean close.
pub fn records_are_clean()
    ensures { RecordsAreClean }
{}

// One of them is convicted under a stricter rule.
pub fn record_is_convicted()
    ensures { RecordIsConvicted }
{}

// A call of a thread that the watch does not have is refused.
pub fn call_is_refused()
    ensures { CallIsRefused }
{}
