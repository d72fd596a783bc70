// The line of a verdict.
ghost use Rattle.std.specs.Prelude.{Some};
ghost use Rattle.verdict.specs.Reports.{line_of, columns_of};

use crate::verdict::{Report, Verdict};
use std::fmt;

// Writes the columns, parted by single spaces.
impl fmt::Display for Verdict {
    ghost output = { λ v. Some (line_of (columns_of v)) };

    fn fmt<W: fmt::Write>(&self, f: &mut fmt::Formatter<W>) -> fmt::Result {
        let Report {
            verdict,
            line,
            code,
            thread,
            number,
            other,
        } = self.report();
        write!(f, "{verdict} {line} {code} {thread} {number} {other}")
    }
}
