// The ended epochs that wait, in the order in which they are judged.
ghost use Rattle.std.specs.Prelude.{◌≡◌, ◌<◌, ◌≤◌, nat_le, [], ◌∷◌, length, drop, MatchOption};
ghost use Rattle.queue.specs.Order.{Heap, sorted, le_by};
ghost use Rattle.semantics.specs.Judging.{insert};
ghost use Rattle.thread.specs.declared.limits.TheConstants.{MOST_WAITING};
ghost use Rattle.ended.specs.Order.{ended_cmp};

use crate::row::EndedRow;
use std::marker::Model;
use thread::limits::MOST_WAITING;

// The first `count` rows wait: a heap, of which the least stands first. An array and a count are what the queue's functions take.
#[derive(Drop)]
pub struct Waiting {
    rows: [EndedRow; MOST_WAITING],
    count: usize,
}

// A clause sees the list of the plain rows in their order.
impl Model for Waiting {
    ghost use Rattle.std.specs.Prelude.{List, take};
    ghost use Rattle.queue.specs.Order.{sorted, le_by};
    ghost use Rattle.semantics.specs.declared.row.Ended.{Ended};
    ghost use Rattle.ended.specs.Order.{ended_cmp};

    ghost Value = { List Ended };

    ghost use Rattle.ended.specs.Waiting.{IsHeaped};

    ghost view = { λ w. sorted (le_by ended_cmp) (take w.count w.rows) };

    ghost invariant = { IsHeaped };
}

impl Waiting {
    // None waits.
    pub fn new() -> Waiting
        ensures { result ≡ [] }
    {
        Waiting {
            rows: [EndedRow::default(); MOST_WAITING],
            count: 0,
        }
    }

    // How many wait.
    #[tactic(auto, using(crate::proofs::Heaps::length_sorted_take))]
    pub fn len(&self) -> usize
        ensures count { result ≡ length self.now }
        ensures fits { result ≤ MOST_WAITING }
    {
        self.count
    }

    // The rows that wait, as they lie: a heap, of which the least stands first.
    #[tactic(auto, using(crate::proofs::Heaps::length_sorted_take))]
    pub fn rows(&self) -> &[EndedRow]
        ensures value { sorted (le_by ended_cmp) result.now ≡ self.now }
        ensures heaped { Heap (le_by ended_cmp) result.now (length result.now) }
        ensures count { length result.now ≡ length self.now }
        ensures fits { length result.now ≤ MOST_WAITING }
    {
        &self.rows[..self.count]
    }

    // Whether no more can wait.
    #[tactic(auto, using(crate::proofs::Heaps::length_sorted_take))]
    pub fn is_full(&self) -> bool
        ensures { result ≡ nat_le MOST_WAITING (length self.now) }
    {
        self.count >= MOST_WAITING
    }

    // One more waits.
    #[tactic(auto, using(crate::proofs::Heaps::length_sorted_take, crate::proofs::Orders::insert_says))]
    pub fn add(&mut self, row: EndedRow)
        requires { length self.old < MOST_WAITING }
        ensures { self.new ≡ insert row self.old }
    {
        self.count = queue::add(&mut self.rows, self.count, row);
    }

    // The first, if there is one.
    #[tactic(auto, using(crate::proofs::Heaps::length_sorted_take))]
    pub fn first(&self) -> Option<EndedRow>
        ensures { MatchOption result (self.now ≡ []) (λ e. self.now ≡ e ∷ drop 1 self.now) }
    {
        if self.count == 0 {
            return None;
        }
        Some(queue::least(&self.rows, self.count))
    }

    // Takes the first out.
    #[tactic(auto, using(crate::proofs::Heaps::length_sorted_take))]
    pub fn take(&mut self) -> EndedRow
        requires { 0 < length self.old }
        ensures { self.old ≡ result ∷ self.new }
    {
        let first = queue::take(&mut self.rows, self.count);
        self.count -= 1;
        first
    }
}
