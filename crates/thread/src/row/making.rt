// A thread that has done nothing, and what can be asked of one.
ghost use Rattle.std.specs.Prelude.{◌≡◌, ◌+◌, ◌≤◌, length, fold, min, ◌==◌};
ghost use Rattle.semantics.specs.Asking.{free_places};
ghost use Rattle.semantics.specs.State.{idle};
ghost use Rattle.thread.specs.Times.{thread_times};

use super::ThreadRow;
use crate::rows::Rows;

impl ThreadRow {
    // Nothing is outstanding or open, and the clock is 0.
    pub fn new() -> ThreadRow
        ensures { result ≡ idle }
    {
        ThreadRow {
            clock: 0,
            commits: 0,
            outstanding: Rows::new(),
            epochs: Rows::new(),
        }
    }

    // The least of a time, the clock and the begins of the open epochs.
    pub fn earliest(&self, time: u64) -> u64
        ensures { result ≡ fold min time (thread_times self.now) }
    {
        self.epochs
            .iter()
            .map(|e| e.from)
            .fold(time.min(self.clock), |a, b| a.min(b))
    }

    // Nothing is outstanding or open.
    pub fn is_idle(&self) -> bool
        ensures { result ≡ (length self.now.pending + length self.now.epochs == 0) }
    {
        self.outstanding.is_empty() && self.epochs.is_empty()
    }

    // How many more operations can be outstanding.
    pub fn spare(&self) -> u64
        ensures free { result ≡ free_places self.now }
        ensures fits { length self.now.pending ≤ 64 }
    {
        self.outstanding.remaining_capacity() as u64
    }
}

// Written out, so that its clause is the idle thread of the meaning.
impl Default for ThreadRow {
    ghost is_default = { λ w. w ≡ idle };

    fn default() -> ThreadRow {
        ThreadRow::new()
    }
}
