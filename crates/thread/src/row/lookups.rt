// Looking up an operation or an epoch of a thread.
ghost use Rattle.std.specs.Prelude.{◌≡◌, ◌<◌, ◌≤◌, length, position, nat_eq};
ghost use Rattle.thread.specs.Performing.{operation_in, epoch_in};

use super::ThreadRow;
use crate::lookups::{row_at, row_numbered};
use semantics::row::{Epoch, Operation};

impl ThreadRow {
    // The row of the operation that is outstanding under a number.
    pub fn operation(&self, number: u64) -> Option<usize>
        ensures { result ≡ position (λ o. nat_eq o.number number) self.now.pending }
    {
        row_numbered(&self.outstanding, number)
    }

    // The row of the open epoch of a place.
    pub fn epoch(&self, place: u64) -> Option<usize>
        ensures { result ≡ position (λ e. nat_eq e.place place) self.now.epochs }
    {
        row_at(&self.epochs, place)
    }

    // The outstanding operation in a row that a lookup answered.
    pub fn operation_in(&self, i: usize) -> Operation
        requires { i < length self.now.pending }
        ensures { result ≡ operation_in self.now i }
    {
        self.outstanding[i]
    }

    // The open epoch in a row that a lookup answered: an Option of an index, whose bound each reader asks for.
    pub fn epoch_in(&self, i: usize) -> Epoch
        requires { i < length self.now.epochs }
        ensures { result ≡ epoch_in self.now i }
    {
        self.epochs[i]
    }

    // The time of the latest step.
    pub fn clock(&self) -> u64
        ensures { result ≡ self.now.clock }
    {
        self.clock
    }

    // How many operations were committed.
    pub fn commits(&self) -> u64
        ensures count { result ≡ self.now.commits }
        ensures fits { result ≤ 1000000 }
    {
        self.commits
    }

    // How many epochs are open.
    pub fn open(&self) -> u64
        ensures count { result ≡ length self.now.epochs }
        ensures fits { result ≤ 32 }
    {
        self.epochs.len() as u64
    }
}
