// An event's line as its six fields.
ghost use Rattle.std.specs.Prelude.{◌≡◌, Some, None, MatchOption};
ghost use Rattle.fields.specs.Splits.{split};
ghost use Rattle.line.specs.Columns.{six, texts};

use fields::cut::cut;

// The fields of a line, as slices of it, by the names that the trace's third line gives them.
#[derive(Clone, Copy)]
pub struct Columns<'a> {
    pub event: &'a [u8],
    pub thread: &'a [u8],
    pub what: &'a [u8],
    pub place: &'a [u8],
    pub value: &'a [u8],
    pub time: &'a [u8],
}

// The six fields of a line; none if there are fewer or more.
// One function for each count of fields: one over an array of N slices, filled in a loop, gets no proof.
#[tactic(auto, using(crate::proofs::Counting::six_more, fields::proofs::Splitting::split_some))]
pub fn split_columns(line: &[u8]) -> Option<Columns<'_>>
    ensures { MatchOption result (six (split 32 line.now) ≡ None) (λ f. six (split 32 line.now) ≡ Some (texts f)) }
{
    let (event, rest) = cut(line, b' ')?;
    let (thread, rest) = cut(rest, b' ')?;
    let (what, rest) = cut(rest, b' ')?;
    let (place, rest) = cut(rest, b' ')?;
    let (value, time) = cut(rest, b' ')?;
    match cut(time, b' ') {
        Some(_) => None,
        None => Some(Columns {
            event,
            thread,
            what,
            place,
            value,
            time,
        }),
    }
}
