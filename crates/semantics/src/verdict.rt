// Why a call is refused, which law it breaks, and what a watch concludes.

mod limit_number;
mod number;

// A bound on what a watch keeps, by its number.
#[derive(Clone, Copy, PartialEq, Eq, Debug)]
pub enum Limit {
    // Outstanding operations of a thread.
    Outstanding = 1,
    // Commits of a thread.
    Commits = 2,
    // Open epochs of a thread.
    Open = 3,
    // Begins in the watch.
    Begins = 4,
    // Owed notices in the watch.
    Owed = 5,
    // Waiting notices in the watch.
    Waiting = 6,
}

// Why a call is refused. No words come with it: programs show its number, and `sentence` has the words.
#[derive(Clone, Copy, PartialEq, Eq, Debug)]
pub enum Refusal {
    // A watch can't have that many threads.
    ThreadCount,
    // The watch is convicted.
    Convicted,
    // The watch is closed.
    Closed,
    // The watch has no such thread.
    UnknownThread,
    // There is no such class of operations, or no such kind of epochs.
    UnknownClass,
    // There is no such place.
    UnknownPlace,
    // The time is below the thread's clock.
    PastTime,
    // Nothing is outstanding under the number.
    NotOutstanding,
    // The thread has the place open; or, of a preset, the place has had a begin.
    AlreadyBegun,
    // The thread has not the place open.
    NotOpen,
    // Nothing is owed under the number.
    NotOwed,
    // The call would pass a limit.
    Over(Limit),
    // Something is outstanding, open or owed.
    Unfinished,
    // The line is longer than the space.
    NoSpace,
}

// A law of memory that a call can break, by its number.
#[derive(Clone, Copy, PartialEq, Eq, Debug)]
pub enum Law {
    // A store performs ahead of an earlier load or store of its thread to its place.
    SamePlace = 21,
    // An operation performs ahead of one that the rule orders before it.
    Ordered = 22,
    // A store has no write epoch, or a load no source.
    NoLeave = 23,
    // A load received another value than its source's.
    WrongValue = 24,
    // An epoch ends at or before its last use.
    EndTooEarly = 25,
    // An epoch ends with another value than its copy.
    WrongEndValue = 26,
    // An epoch begins before an end that it has to wait for.
    Overlap = 27,
    // An epoch begins with another value than the home's.
    WrongBeginValue = 28,
    // An owed notice is dropped.
    Dropped = 29,
}

// Which law was broken, by which thread, in which operation, place or notice, and against what. Two numbers for every law:
// each law and a verdict's line name both, so a payload for each law would only be taken apart again.
#[derive(Clone, Copy, PartialEq, Eq, Debug)]
pub struct Conviction {
    pub law: Law,
    pub thread: u64,
    pub number: u64,
    pub other: u64,
}

// What a watch has concluded.
#[derive(Clone, Copy, PartialEq, Eq, Debug)]
pub enum Verdict {
    Running,
    Clean,
    Guilty(Conviction),
}
