// The parts of an explanation.
use event::event::Event;
use line::fault::Garbled;
use ordering::class::Class;
use semantics::verdict::Refusal;
use setup::setup::Setup;

// What a commit states.
#[derive(Clone, Copy)]
pub struct Commit {
    pub class: Class,
    pub place: u64,
    pub value: u64,
}

// An operation by its number in its thread, with what its commit states where the text has one.
#[derive(Clone, Copy)]
pub struct Operation {
    pub number: u64,
    pub commit: Option<Commit>,
}

// Where an epoch began: the line, the kind, the value and the time. The kind is a number, since a text may have any there.
#[derive(Clone, Copy)]
pub struct Begin {
    pub line: u64,
    pub kind: u64,
    pub value: u64,
    pub time: u64,
}

// Where an epoch ended: the line, the thread, the place and the time.
#[derive(Clone, Copy)]
pub struct End {
    pub line: u64,
    pub thread: u64,
    pub place: u64,
    pub time: u64,
}

// An epoch by its notice, with its begin and its end where the text has them.
#[derive(Clone, Copy)]
pub struct Epoch {
    pub notice: u64,
    pub begin: Option<Begin>,
    pub end: Option<End>,
}

// What was found, with the parts that are of importance there.
#[derive(Clone, Copy)]
pub enum Finding {
    Clean,
    // Law 21: a store passed an earlier operation of its place.
    SamePlace {
        thread: u64,
        operation: Operation,
        earlier: Operation,
    },
    // Law 22: an operation passed an earlier one that the rule orders before it.
    Ordered {
        thread: u64,
        operation: Operation,
        earlier: Operation,
    },
    // Law 23: an operation without leave.
    NoLeave {
        thread: u64,
        operation: Operation,
        place: u64,
    },
    // Law 24: a load with another value than its source's.
    WrongValue {
        thread: u64,
        operation: Operation,
        source: u64,
    },
    // Law 25: an end at or before the last use.
    EndTooEarly {
        thread: u64,
        place: u64,
        last_use: u64,
    },
    // Law 26: an end with another value than the copy.
    WrongEndValue {
        thread: u64,
        place: u64,
        copy: u64,
    },
    // Law 27: an epoch that began before an end which it has to wait for.
    Overlap {
        thread: u64,
        epoch: Epoch,
        until: u64,
    },
    // Law 28: an epoch that began with another value than the home's.
    WrongBeginValue {
        thread: u64,
        epoch: Epoch,
        home: u64,
    },
    // Law 29: an owed notice was dropped.
    Dropped {
        thread: u64,
        epoch: Epoch,
        place: u64,
    },
    Refused(Refusal),
    Garbled(Garbled),
}

// A verdict explained: its line, what line 2 sets, the event on the line, and what was found there.
#[derive(Clone, Copy)]
pub struct Explanation {
    pub line: u64,
    pub setup: Option<Setup>,
    pub call: Option<Event>,
    pub finding: Finding,
}
