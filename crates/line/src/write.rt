// An event written as a line.
ghost use Rattle.std.specs.Prelude.{◌≡◌, ◌+◌, ◌≤◌, ◌∷◌, ◌++◌, decimal};
ghost use Rattle.arrayvec.specs.ArrayString.{array_string_len};
ghost use Rattle.line.specs.Drafts.{written, fitted, laid};
ghost use Rattle.line.specs.Lines.{LongestLine, ReadsBack};

use crate::fault::TooLong;
use arrayvec::ArrayString;
use event::event::{Event, Row};
use itoa::Buffer;

// Seven bytes of a word, five times a space and twenty digits, and a line feed.
const ROOM: usize = 113;

// A space and a number.
#[tactic(auto, using(fields::proofs::Numerals::length_decimal))]
fn push_field(line: &mut ArrayString<ROOM>, number: u64)
    requires { array_string_len line.old + 21 ≤ 113 }
    ensures text { line.new.bytes ≡ line.old.bytes ++ (32 ∷ decimal number) }
    ensures bound { array_string_len line.new ≤ array_string_len line.old + 21 }
{
    line.push_str(" ");
    line.push_str(Buffer::new().format(number));
}

// The line of an event with its line feed. Each number by its name: a loop over the five would be no plainer.
#[tactic(auto, using(crate::proofs::Drafting::assembled))]
fn draft_line(event: Event) -> ArrayString<ROOM>
    ensures { result.bytes ≡ written event }
{
    let mut line = ArrayString::new();
    line.push_str(event.kind().word());
    let row = Row::from(event);
    push_field(&mut line, row.thread);
    push_field(&mut line, row.what);
    push_field(&mut line, row.place);
    push_field(&mut line, row.value);
    push_field(&mut line, row.time);
    line.push_str("\n");
    line
}

// Writes the line of an event, with its line feed, at the start of a space, and says how long it is.
// A space that is too short stays as it is.
#[tactic(auto, using(crate::proofs::Bounds::longest_line, crate::proofs::RoundTrip::reads_back))]
pub fn write_line(event: Event, space: &mut [u8]) -> Result<usize, TooLong>
    ensures answer { result ≡ fitted (written event) space.old }
    ensures state { space.new ≡ laid (written event) space.old }
    ensures bound { LongestLine }
    ensures back { ReadsBack }
{
    let line = draft_line(event);
    let used = line.len();
    if used > space.len() {
        return Err(TooLong);
    }
    space[..used].copy_from_slice(line.as_str().as_bytes());
    Ok(used)
}
