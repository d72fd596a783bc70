// The plain rows that a watch keeps.
use crate::class::OpClass;

// An operation that has committed and not performed.
#[derive(Clone, Copy, PartialEq, Eq, Debug, Default)]
pub struct Operation {
    pub number: u64,
    pub class: OpClass,
    pub place: u64,
    pub value: u64,
}

// An open epoch: it began at `from` with the value `start`; `copy` is its value now, and `used` the time of its last use.
// Of its kind the rows keep `writes`, the one question that laws and judging ask of it.
#[derive(Clone, Copy, PartialEq, Eq, Debug, Default)]
pub struct Epoch {
    pub writes: bool,
    pub place: u64,
    pub from: u64,
    pub start: u64,
    pub copy: u64,
    pub used: u64,
}

// An ended epoch under the number of its notice: it lasted from `from` until `until`, and its value went from `start` to `last`.
// Rows are ordered by their fields in turn: by begin, then by number. `writes` is the one question that judging asks of its kind.
#[derive(Clone, Copy, PartialEq, Eq, PartialOrd, Ord, Debug)]
pub struct Ended {
    pub from: u64,
    pub number: u64,
    pub thread: u64,
    pub writes: bool,
    pub place: u64,
    pub until: u64,
    pub start: u64,
    pub last: u64,
}

// What the home keeps of a place: its value, the latest end of a judged read and of a judged write, and whether an epoch ever began there.
// `begun` stands apart from the ends: a preset asks it, and judging does not.
#[derive(Clone, Copy, PartialEq, Eq, Debug, Default)]
pub struct Home {
    pub value: u64,
    pub read_end: u64,
    pub write_end: u64,
    pub begun: bool,
}
