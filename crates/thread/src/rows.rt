// Rows in an array that has room for some number of them. They can be copied, as a vector of the library can't: each place past them
// is blank, so that the rows alone give the array back.
ghost use Rattle.std.specs.Prelude.{◌≡◌, ◌+◌, ◌-◌, ◌<◌, ◌≤◌, ◌==◌, [], ◌∷◌, ◌++◌, length, take, drop, filter, not, remove, replicate, slice_set};
ghost use Rattle.thread.specs.Performing.{no_operation, no_epoch};

use semantics::row::{Epoch, Operation};
use std::alloc::AllocError;
use std::marker::Model;
use std::ops::DerefSlice;

// A row whose default is known, so that it can stand where there is none.
pub(crate) trait Blank: Default + Copy {
    ghost blank: { Self };

    ghost is_blank: { (x : Self) → Self.Default.is_default x → x ≡ blank };
}

impl Blank for Operation {
    ghost blank = { no_operation };

    ghost is_blank = { λ x h i. record { number = h.0 i; class = h.1.0 i; place = h.1.1.0 i; value = h.1.1.1 i } };
}

impl Blank for Epoch {
    ghost blank = { no_epoch };

    ghost is_blank = { λ x h i. record { writes = h.0 i; place = h.1.0 i; from = h.1.1.0 i; start = h.1.1.1.0 i; copy = h.1.1.1.1.0 i; used = h.1.1.1.1.1 i } };
}

// The first `count` places hold rows.
#[derive(Copy)]
pub(crate) struct Rows<T: Blank, const ROOM: usize> {
    places: [T; ROOM],
    count: usize,
}

// A clause sees the list of the rows.
impl<T: Blank, const ROOM: usize> Model for Rows<T, ROOM> {
    ghost use Rattle.std.specs.Prelude.{◌-◌, List, ◌++◌, length, take, replicate};
    ghost use Rattle.std.specs.Coded.{coded_list};
    ghost use Rattle.thread.specs.Rows.{IsFilled, count_given_back, places_given_back};

    ghost Value = { List T };

    ghost coded = { coded_list T.code };

    ghost view = { λ r. take r.count r.places };

    ghost invariant = { λ r. IsFilled T.blank ROOM r.count r.places };

    ghost inverse = { λ xs. record { places = xs ++ replicate (ROOM - length xs) T.blank; count = length xs } };

    ghost inverse_ok = { λ r h i. record { places = places_given_back h i; count = count_given_back h i } };
}

impl<T: Blank, const ROOM: usize> Clone for Rows<T, ROOM> {
    ghost is_clone = { λ r s. s ≡ r };

    fn clone(&self) -> Result<Self, AllocError> {
        Ok(*self)
    }
}

impl<T: Blank, const ROOM: usize> DerefSlice for Rows<T, ROOM> {
    type Elem = T;

    ghost deref_gives = { λ r xs. (xs ≡ r) × (length xs ≤ ROOM) };

    fn deref(&self) -> &[T] {
        &self.places[..self.count]
    }
}

impl<T: Blank, const ROOM: usize> Rows<T, ROOM> {
    // No row.
    pub(crate) fn new() -> Self
        ensures { result ≡ [] }
    {
        Rows {
            places: [T::default(); ROOM],
            count: 0,
        }
    }

    // How many rows there are.
    pub(crate) fn len(&self) -> usize
        ensures count { result ≡ length self.now }
        ensures fits { result ≤ ROOM }
    {
        self.count
    }

    // Whether there is no room for one more.
    pub(crate) fn is_full(&self) -> bool
        ensures value { result ≡ (length self.now == ROOM) }
        ensures fits { length self.now ≤ ROOM }
    {
        self.count == ROOM
    }

    // How many more there is room for.
    pub(crate) fn remaining_capacity(&self) -> usize
        ensures { result + length self.now ≡ ROOM }
    {
        ROOM - self.count
    }

    // One more row.
    pub(crate) fn push(&mut self, row: T)
        requires { length self.old < ROOM }
        ensures { self.new ≡ self.old ++ row ∷ [] }
    {
        self.places[self.count] = row;
        self.count += 1;
    }

    // Another row at an index.
    pub(crate) fn set(&mut self, i: usize, row: T)
        requires { i < length self.old }
        ensures { self.new ≡ slice_set self.old i row }
    {
        let places = &mut self.places[..];
        places[i] = row;
    }

    // The row at an index goes, and those after it move up.
    pub(crate) fn remove(&mut self, i: usize)
        requires { i < length self.old }
        ensures { self.new ≡ remove self.old i }
    {
        take_out(&mut self.places, self.count, i, T::default());
        self.count -= 1;
    }
}

impl<const ROOM: usize> Rows<Operation, ROOM> {
    // The operations of a number go, and those that stay move up. Each row is looked at once, since any may have the number.
    pub(crate) fn drop_number(&mut self, number: u64)
        ensures { self.new ≡ filter (λ o. not (o.number == number)) self.old }
    {
        self.count = take_number_out(&mut self.places, self.count, number, Operation::default());
    }
}

// The operations of a number go out of the first `count`, blank ones stand behind those that stay, and their number is answered.
fn take_number_out(rows: &mut [Operation], count: usize, number: u64, blank: Operation) -> usize
    requires { count ≤ length rows.old }
    ensures left { result ≡ length (filter (λ o. not (o.number == number)) (take count rows.old)) }
    ensures rows { rows.new ≡ filter (λ o. not (o.number == number)) (take count rows.old) ++ (replicate (count - result) blank ++ drop count rows.old) }
{
    let mut left = 0;
    for i in 0..count {
        if rows[i].number != number {
            rows[left] = rows[i];
            left += 1;
        }
    }
    rows[left..count].fill(blank);
    left
}

// The row at an index goes out of the first `count`, and another one stands behind what is left of them.
fn take_out<T: Copy>(rows: &mut [T], count: usize, i: usize, last: T)
    requires { (i < count) × (count ≤ length rows.old) }
    ensures { rows.new ≡ remove (take count rows.old) i ++ last ∷ drop count rows.old }
{
    rows[i..count].rotate_left(1);
    rows[count - 1] = last;
}
