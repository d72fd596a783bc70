// What is wrong with a text, and where.
use line::fault::Garbled;

// A fault and its line; line 0 is the whole text, as a verdict's line writes it.
#[derive(Clone, Copy, PartialEq, Eq, Debug)]
pub struct Fault {
    pub line: u64,
    pub what: Garbled,
}
