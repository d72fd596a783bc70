// The rows whose notices are owed.
ghost use Rattle.std.specs.Prelude.{◌≡◌, nat_eq, min, map, fold, position};
ghost use Rattle.semantics.specs.Puts.{without};

use crate::row::EndedRow;
use arrayvec::ArrayVec;
use thread::limits::MOST_OWED;

// The row of a notice's number.
pub fn row_of(rows: &[EndedRow], number: u64) -> Option<usize>
    ensures { result ≡ position (λ e. nat_eq e.number number) rows.now }
{
    rows.iter().position(|row| row.number == number)
}

// Takes the row of a notice's number out. A function of its own, and one for each type of row, as thread has for epochs: its key is another field.
pub fn drop_row(rows: &mut ArrayVec<EndedRow, MOST_OWED>, number: u64)
    ensures { rows.new.items ≡ without number rows.old.items }
{
    rows.retain(|row| row.number != number);
}

// The least of a time and all begins.
pub fn least_begin(rows: &[EndedRow], time: u64) -> u64
    ensures { result ≡ fold min time (map (λ e. e.from) rows.now) }
{
    rows.iter()
        .map(|row| row.span.begin())
        .fold(time, |a, b| a.min(b))
}
