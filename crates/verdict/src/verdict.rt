// What there is to say of a trace.
use semantics::verdict::{Conviction, Refusal};
use text::fault::Fault;

// The verdict on a trace, with the line that it is due to.
#[derive(Clone, Copy)]
pub enum Verdict {
    // The close was taken: nothing is wrong.
    Clean { line: u64 },
    // A call broke a law.
    Convicted { line: u64, conviction: Conviction },
    // A call was refused.
    Refused { line: u64, refusal: Refusal },
    // The text itself is at fault.
    Garbled(Fault),
}

// A verdict as the columns of its line.
#[derive(Clone, Copy)]
pub struct Report {
    pub verdict: &'static str,
    pub line: u64,
    pub code: u64,
    pub thread: u64,
    pub number: u64,
    pub other: u64,
}
