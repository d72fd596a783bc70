// Settling and closing.
ghost use Rattle.std.specs.Prelude.{◌≡◌, None, Some, MatchResult, ◌+◌, length, fold, min, ◌==◌};
ghost use Rattle.std.specs.List.{list_all};
ghost use Rattle.semantics.specs.Calls.{settle, close, taken};
ghost use Rattle.semantics.specs.Calls as calls;
ghost use Rattle.semantics.specs.Judging.{safe};
ghost use Rattle.semantics.specs.Laws.{Precedes};
ghost use Rattle.semantics.specs.Lists.{first_of};
ghost use Rattle.semantics.specs.Refusals.{refusals};
ghost use Rattle.semantics.specs.State.{busy};
ghost use Rattle.thread.specs.Times.{thread_times};
ghost use Rattle.table.specs.Told.{told, Meets};

use super::Table;
use crate::fault::Fault;
use ended::owed::least_begin;
use semantics::verdict::{Refusal, Verdict};
use thread::row::ThreadRow;

impl Table {
    // The least of all clocks and all begins of open and owed epochs.
    #[tactic(auto, using(crate::proofs::Threads::least_is))]
    fn safe_time(&self) -> u64
        ensures { result ≡ safe self.now }
    {
        let time = earliest(&self.threads, self.threads[0].clock());
        least_begin(&self.owed, time)
    }

    // Nothing is outstanding, open or owed.
    fn is_idle(&self) -> bool
        ensures { result ≡ (busy self.now == 0) }
    {
        are_idle(&self.threads) && self.owed.is_empty()
    }

    // How many were judged.
    pub fn settle(&mut self) -> Result<u64, Fault>
        ensures { (B : Precedes) → Meets B self.old settle (told taken result) self.new }
    {
        self.running()?;
        let time = self.safe_time();
        // A match here and in the other calls that can convict: of a closure for map_err the check does not learn what it leaves in the table.
        match self.judge(|row| row.begins_before(time)) {
            Ok(done) => Ok(done),
            Err(conviction) => Err(self.convict(conviction)),
        }
    }

    // Refusals 2, 3 and 13.
    fn may_close(&self) -> Result<(), Refusal>
        ensures { MatchResult result (λ _. first_of (refusals self.now close) ≡ None) (λ f. first_of (refusals self.now close) ≡ Some f) }
    {
        self.running()?;
        if !self.is_idle() {
            return Err(Refusal::Unfinished);
        }
        Ok(())
    }

    // Judges all that wait, and closes the watch. Refusals 2, 3, 13; laws 27 and 28.
    pub fn close(&mut self) -> Result<(), Fault>
        ensures { (B : Precedes) → Meets B self.old close (told (λ _. calls.clean) result) self.new }
    {
        self.may_close()?;
        // A match, as in settle.
        match self.judge(|_| true) {
            Ok(_) => {
                self.verdict = Verdict::Clean;
                Ok(())
            }
            Err(conviction) => Err(self.convict(conviction)),
        }
    }
}

// The least of a time and the times of some threads.
fn earliest(threads: &[ThreadRow], time: u64) -> u64
    ensures { result ≡ fold (λ m w. fold min m (thread_times w)) time threads.now }
{
    threads
        .iter()
        .fold(time, |time, thread| thread.earliest(time))
}

// Whether each of some threads is idle.
fn are_idle(threads: &[ThreadRow]) -> bool
    ensures { result ≡ list_all (λ w. length w.pending + length w.epochs == 0) threads.now }
{
    threads.iter().all(|thread| thread.is_idle())
}
