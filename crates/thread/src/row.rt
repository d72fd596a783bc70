// The row of a thread.
use crate::limits::{MOST_OPEN, MOST_OUTSTANDING};
use crate::rows::Rows;
use semantics::row::{Epoch, Operation};
use std::marker::Model;

mod laws;
mod lookups;
mod making;
mod performing;
mod steps;

// As a watch makes it, the outstanding operations stand in program order, the open epochs in the order of their begins; nothing rests on that.
#[derive(Clone, Copy)]
pub struct ThreadRow {
    clock: u64,
    commits: u64,
    outstanding: Rows<Operation, MOST_OUTSTANDING>,
    epochs: Rows<Epoch, MOST_OPEN>,
}

impl Model for ThreadRow {
    ghost use Rattle.semantics.specs.State.{Thread};

    ghost Value = { Thread };

    ghost use Rattle.thread.specs.Sound.{IsSound};

    ghost view = { λ w. record { clock = w.clock; commits = w.commits; pending = w.outstanding; epochs = w.epochs } };

    ghost invariant = { IsSound };

    ghost inverse = { λ t. record { clock = t.clock; commits = t.commits; outstanding = t.pending; epochs = t.epochs } };
}
