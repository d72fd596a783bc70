// A verdict as the columns of its line.
ghost use Rattle.std.specs.Prelude.{◌≡◌};
ghost use Rattle.verdict.specs.Reports.{columns, columns_of, heading};

use crate::verdict::{Report, Verdict};

// The names of the columns.
pub const HEADING: &str = "verdict line code thread number other";

// The line above a verdict's line.
pub fn heading() -> &'static str
    ensures { result.now ≡ heading }
{
    HEADING
}

impl Verdict {
    // The columns of the verdict's line.
    pub fn report(self) -> Report
        ensures { columns result ≡ columns_of self }
    {
        match self {
            Verdict::Clean { line } => Report {
                verdict: "clean",
                line,
                code: 0,
                thread: 0,
                number: 0,
                other: 0,
            },
            Verdict::Convicted { line, conviction } => Report {
                verdict: "convicted",
                line,
                code: conviction.law.number(),
                thread: conviction.thread,
                number: conviction.number,
                other: conviction.other,
            },
            Verdict::Refused { line, refusal } => Report {
                verdict: "refused",
                line,
                code: refusal.number(),
                thread: 0,
                number: refusal.limit(),
                other: 0,
            },
            Verdict::Garbled(fault) => Report {
                verdict: "garbled",
                line: fault.line,
                code: fault.what.code(),
                thread: 0,
                number: 0,
                other: 0,
            },
        }
    }
}
