// Looking up rows in slices. Each chain is a function of its own: amid other steps the check does not find what was looked up.
ghost use Rattle.std.specs.Prelude.{◌≡◌, ◌&&◌, find, filter, position, reverse, nat_eq, nat_lt, ◌==◌};
ghost use Rattle.semantics.specs.Classes.{touches, writes, face};

use ordering::class::Class;
use ordering::rule::OrderingRule;
use semantics::row::{Epoch, Operation};

// The row of the operation of a number.
pub(crate) fn row_numbered(rows: &[Operation], number: u64) -> Option<usize>
    ensures { result ≡ position (λ o. nat_eq o.number number) rows.now }
{
    rows.iter().position(|o| o.number == number)
}

// The row of the epoch of a place.
pub(crate) fn row_at(rows: &[Epoch], place: u64) -> Option<usize>
    ensures { result ≡ position (λ e. nat_eq e.place place) rows.now }
{
    rows.iter().position(|e| e.place == place)
}

// How many rows stand behind the last whose number is below a number.
fn rows_behind(rows: &[Operation], number: u64) -> Option<usize>
    ensures { result ≡ position (λ x. nat_lt x.number number) (reverse rows.now) }
{
    rows.iter().rev().position(|x| x.number < number)
}

// The rows up to the last whose number is below a number, which most often are none: those behind are looked at once, and not by each law.
pub(crate) fn front(rows: &[Operation], number: u64) -> &[Operation]
    ensures { filter (λ x. nat_lt x.number number) result.now ≡ filter (λ x. nat_lt x.number number) rows.now }
{
    let behind = rows_behind(rows, number).unwrap_or(rows.len());
    &rows[..rows.len().saturating_sub(behind)]
}

// The first operation below a number that is at a place.
pub(crate) fn first_at(rows: &[Operation], number: u64, place: u64) -> Option<Operation>
    ensures { result ≡ find (λ x. touches x.class && (x.place == place)) (filter (λ x. nat_lt x.number number) rows.now) }
{
    rows.iter()
        .copied()
        .filter(|x| x.number < number)
        .find(|x| x.class.touches() && x.place == place)
}

// The first operation below a number that a rule orders before a class.
pub(crate) fn first_before<R: OrderingRule>(
    rows: &[Operation],
    number: u64,
    rule: &R,
    class: Class,
) -> Option<Operation>
    ensures { result ≡ find (λ x. R.OrderingRule.orders rule.now (face x.class) class) (filter (λ x. nat_lt x.number number) rows.now) }
{
    rows.iter()
        .copied()
        .filter(|x| x.number < number)
        .find(|x| rule.ordered(x.class.face(), class))
}

// The last operation below a number that writes a place.
pub(crate) fn last_writer(rows: &[Operation], number: u64, place: u64) -> Option<Operation>
    ensures { result ≡ find (λ x. writes x.class && (x.place == place)) (filter (λ x. nat_lt x.number number) (reverse rows.now)) }
{
    rows.iter()
        .rev()
        .copied()
        .filter(|x| x.number < number)
        .find(|x| x.class.writes() && x.place == place)
}
