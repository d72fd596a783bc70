// The promise to an honest board, over what the calls of a watch mean.
#![tactic(auto)]

ghost use Rattle.honest.specs.Corners.{Corners};
ghost use Rattle.honest.specs.Examples.{WorkedIsARecord, MixedIsARecord};
ghost use Rattle.honest.specs.Honest.{HonestIsClean, TakenIsWithin, HonestCallIsTaken, HonestCloseIsClean};

// Of a record of a run of the memory machine, within the limits, every call is taken, and the close answers clean.
pub fn honest_is_clean()
    ensures { HonestIsClean }
{}

// The limits are said exactly: a record whose every call is taken is within them.
pub fn taken_is_within()
    ensures { TakenIsWithin }
{}

// A call with which a trace is still the front of such a record is taken.
pub fn honest_call()
    ensures { HonestCallIsTaken }
{}

// A close that completes such a record answers clean, and every call before it was taken.
pub fn honest_close()
    ensures { HonestCloseIsClean }
{}

// Such records exist: one of a single thread, in which a load overtakes a store.
pub fn worked_is_a_record()
    ensures { WorkedIsARecord }
{}

// And one of two threads, whose calls stand far out of the order of the run, with late reports.
pub fn mixed_is_a_record()
    ensures { MixedIsARecord }
{}

// Lists that break one clause of the machine or of a record are refused or convicted; lists at its edge are clean.
pub fn corners_stand()
    ensures { Corners }
{}
