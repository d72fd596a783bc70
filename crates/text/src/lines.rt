// The lines of a text, one by one: each call is given what is left of the text, and hands back what is left after it.
ghost use Rattle.std.specs.Prelude.{◌≡◌, Ok, Err, MatchResult};
ghost use Rattle.fields.specs.Splits.{split};
ghost use Rattle.fields.specs.Steps.{◌then◌};
ghost use Rattle.text.specs.Texts.{line, heading, Passed};

use crate::limits::MAX_LINE;
use fields::cut::cut;
use line::fault::Garbled;
use line::read::FromLine;

// The next line, without its line feed.
#[tactic(auto, using(crate::proofs::Passing::line_none, crate::proofs::Passing::line_cut, crate::proofs::Passing::passed_cut))]
pub fn next_line(text: &[u8]) -> Result<(&[u8], &[u8]), Garbled>
    ensures { MatchResult result (λ p. (line (split 10 text.now) ≡ Ok p.0.now) × Passed text.now p.1.now) (λ e. line (split 10 text.now) ≡ Err e) }
{
    if text.is_empty() {
        return Err(Garbled::End);
    }
    let Some((line, rest)) = cut(text, b'\n') else {
        return Err(Garbled::LineLength);
    };
    if line.len() < MAX_LINE {
        Ok((line, rest))
    } else {
        Err(Garbled::LineLength)
    }
}

// The next line, which has to be as expected.
#[tactic(auto, using(crate::proofs::Passing::heading_same, crate::proofs::Passing::heading_other))]
pub fn pass_heading<'a>(text: &'a [u8], expected: &[u8]) -> Result<&'a [u8], Garbled>
    ensures { MatchResult result (λ p. (heading expected.now (split 10 text.now) ≡ Ok tt) × Passed text.now p.now) (λ e. heading expected.now (split 10 text.now) ≡ Err e) }
{
    let (line, rest) = next_line(text)?;
    if line == expected {
        Ok(rest)
    } else {
        Err(Garbled::Heading)
    }
}

// The next line, read as an event or a setup.
pub fn next_as<T: FromLine>(text: &[u8]) -> Result<(T, &[u8]), Garbled>
    ensures { MatchResult result (λ p. ((line (split 10 text.now) then T.FromLine.reads) ≡ Ok p.0) × Passed text.now p.1.now) (λ e. (line (split 10 text.now) then T.FromLine.reads) ≡ Err e) }
{
    let (line, rest) = next_line(text)?;
    Ok((T::from_line(line)?, rest))
}
