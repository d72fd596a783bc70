// What a line of a trace can say.

// One call of a trace, with the numbers that it takes: of classes and kinds too, since a text may have any number there.
#[derive(Clone, Copy)]
pub enum Event {
    Preset {
        place: u64,
        value: u64,
    },
    Commit {
        thread: u64,
        class: u64,
        place: u64,
        value: u64,
    },
    Perform {
        thread: u64,
        number: u64,
        time: u64,
    },
    Advance {
        thread: u64,
        time: u64,
    },
    Begin {
        thread: u64,
        kind: u64,
        place: u64,
        value: u64,
        time: u64,
    },
    End {
        thread: u64,
        place: u64,
        value: u64,
        time: u64,
    },
    Settle,
    Close,
}

// What an event does, told by the first word of its line.
#[derive(Clone, Copy)]
pub enum EventKind {
    Preset,
    Commit,
    Perform,
    Advance,
    Begin,
    End,
    Settle,
    Close,
}

// The five numbers that follow the word, 0 where the event has no such number.
#[derive(Clone, Copy, PartialEq, Eq, Default)]
pub struct Row {
    pub thread: u64,
    pub what: u64,
    pub place: u64,
    pub value: u64,
    pub time: u64,
}
