// The rows of a watch.
use arrayvec::ArrayVec;
use ended::row::EndedRow;
use ended::waiting::Waiting;
use semantics::row::Home;
use semantics::verdict::Verdict;
use std::marker::Model;
use thread::limits::{MOST_OWED, MOST_THREADS, PLACES};
use thread::row::ThreadRow;

mod asking;
mod calls;
mod checks;
mod judging;
mod making;
mod notices;
mod performing;
mod settling;

// A thread has the row of its number; the owed stand in the order of their ends.
// The homes are an array, since every place has one from the start.
#[derive(Drop)]
pub struct Table {
    threads: ArrayVec<ThreadRow, MOST_THREADS>,
    homes: [Home; PLACES],
    owed: ArrayVec<EndedRow, MOST_OWED>,
    waiting: Waiting,
    begins: u64,
    ends: u64,
    judged: u64,
    dropped: u64,
    verdict: Verdict,
}

// A clause sees the state of a watch.
impl Model for Table {
    ghost use Rattle.semantics.specs.State.{State};

    ghost Value = { State };

    ghost use Rattle.table.specs.Sound.{IsSound};

    ghost view = { λ t. record { threads = t.threads.items; homes = t.homes; owed = t.owed.items; waiting = t.waiting; begins = t.begins; ends = t.ends; judged = t.judged; dropped = t.dropped; verdict = t.verdict } };

    ghost invariant = { IsSound };
}
