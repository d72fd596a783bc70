// The second line of a trace, read.
ghost use Rattle.std.specs.Prelude.{◌≡◌, Some, None, MatchOption};
ghost use Rattle.fields.specs.Splits.{split};
ghost use Rattle.setup.specs.Setups.{two, read_setup, SetupBack, OneSetup};

use crate::setup::{RuleName, Setup};
use fields::cut::cut;
use fields::number::read_number;
use line::fault::Garbled;
use line::read::FromLine;

// The two fields of a line; none if there are fewer or more.
// One function for each count of fields: one over an array of N slices, filled in a loop, gets no proof.
#[tactic(auto, using(crate::proofs::Pairs::two_more, fields::proofs::Splitting::split_some))]
fn two_fields(line: &[u8]) -> Option<(&[u8], &[u8])>
    ensures { MatchOption result (two (split 32 line.now) ≡ None) (λ p. two (split 32 line.now) ≡ Some (p.0.now, p.1.now)) }
{
    let (first, second) = cut(line, b' ')?;
    match cut(second, b' ') {
        Some(_) => None,
        None => Some((first, second)),
    }
}

impl FromLine for Setup {
    ghost reads = { read_setup };

    fn from_line(line: &[u8]) -> Result<Setup, Garbled> {
        read_setup(line)
    }
}

// The rule and the number of threads, or the first fault of the line, which is given without its line feed.
#[tactic(auto, using(crate::proofs::SetupLine::setup_back, crate::proofs::SetupLine::one_setup))]
pub fn read_setup(line: &[u8]) -> Result<Setup, Garbled>
    ensures answer { result ≡ read_setup line.now }
    ensures back { SetupBack }
    ensures same { OneSetup }
{
    let (rule, threads) = two_fields(line).ok_or(Garbled::FieldCount)?;
    let rule = RuleName::from_bytes(rule).ok_or(Garbled::Unknown)?;
    let threads = read_number(threads).ok_or(Garbled::Number)?;
    Ok(Setup { rule, threads })
}
