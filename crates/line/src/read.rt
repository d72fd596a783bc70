// A line read as an event.
ghost use Rattle.std.specs.Prelude.{◌≡◌, ℕ, List, Result};
ghost use Rattle.line.specs.declared.fault.Garbled.{Garbled};
ghost use Rattle.line.specs.Columns.{texts};
ghost use Rattle.line.specs.Lines.{read, row, ReadsBack, OneLine};

use crate::columns::{Columns, split_columns};
use crate::fault::Garbled;
use event::event::{Event, EventKind, Row};
use fields::number::read_number;

// The five numbers of a line.
fn read_row(columns: Columns<'_>) -> Option<Row>
    ensures { result ≡ row (texts columns.entry) }
{
    Some(Row {
        thread: read_number(columns.thread)?,
        what: read_number(columns.what)?,
        place: read_number(columns.place)?,
        value: read_number(columns.value)?,
        time: read_number(columns.time)?,
    })
}

// What a line of a trace can be read as.
pub trait FromLine: Sized {
    // What each line is read as, or its first fault.
    ghost reads: { List ℕ → Result Self Garbled };

    // Reads a line, which is given without its line feed.
    fn from_line(line: &[u8]) -> Result<Self, Garbled>
        ensures { result ≡ reads line.now };
}

impl FromLine for Event {
    ghost reads = { read };

    fn from_line(line: &[u8]) -> Result<Event, Garbled> {
        read_line(line)
    }
}

// The event of a line, which is given without its line feed, or the first fault of the line.
#[tactic(auto, using(crate::proofs::RoundTrip::reads_back, crate::proofs::RoundTrip::one_line))]
pub fn read_line(line: &[u8]) -> Result<Event, Garbled>
    ensures answer { result ≡ read line.now }
    ensures back { ReadsBack }
    ensures same { OneLine }
{
    let columns = split_columns(line).ok_or(Garbled::FieldCount)?;
    let kind = EventKind::from_word(columns.event).ok_or(Garbled::Unknown)?;
    let row = read_row(columns).ok_or(Garbled::Number)?;
    Event::from_row(kind, row).ok_or(Garbled::Unused)
}
