// What can be asked of a table.
ghost use Rattle.std.specs.Prelude.{◌≡◌, ◌+◌, ◌<◌, ◌≤◌, ◌^◌, length, MatchResult};
ghost use Rattle.std.specs.List.{sum_by};
ghost use Rattle.queue.specs.Order.{Heap, sorted, le_by};
ghost use Rattle.semantics.specs.declared.verdict.Refusal.TheVariants as refusal;
ghost use Rattle.semantics.specs.Asking.{counts, free_places, open_in};
ghost use Rattle.semantics.specs.State.{thread_of};
ghost use Rattle.thread.specs.declared.limits.TheConstants.{PLACES, MOST_THREADS, MOST_OWED, MOST_WAITING, MOST_BEGINS};
ghost use Rattle.ended.specs.Order.{ended_cmp};

use super::Table;
use ended::row::EndedRow;
use semantics::counts::Counts;
use semantics::row::Home;
use semantics::verdict::{Refusal, Verdict};
use thread::row::ThreadRow;

impl Table {
    // What the watch has concluded.
    pub fn verdict(&self) -> Verdict
        ensures { result ≡ self.now.verdict }
    {
        self.verdict
    }

    // How many more operations a thread can have outstanding; refusal 4.
    pub fn spare(&self, thread: u64) -> Result<u64, Refusal>
        ensures { MatchResult result (λ k. (thread < length self.now.threads) × (k ≡ free_places (thread_of self.now thread))) (λ f. (f ≡ refusal.UnknownThread) × (length self.now.threads ≤ thread)) }
    {
        // Not by `thread`, which refuses on a stopped watch too.
        if self.threads.len() as u64 <= thread {
            return Err(Refusal::UnknownThread);
        }
        Ok(self.threads[thread as usize].spare())
    }

    // The five accounts.
    #[tactic(auto, using(crate::proofs::Threads::open_by))]
    pub fn counts(&self) -> Counts
        ensures { result ≡ counts self.now }
    {
        Counts {
            open: open_epochs(&self.threads),
            owed: self.owed.len() as u64,
            waiting: self.waiting.len() as u64,
            judged: self.judged,
            dropped: self.dropped,
        }
    }

    // The rows of the threads, each in the place of its number.
    pub fn threads(&self) -> &[ThreadRow]
        ensures value { result.now ≡ self.now.threads }
        ensures some { 0 < length result.now }
        ensures fits { length result.now ≤ MOST_THREADS }
    {
        &self.threads
    }

    // The homes of the places.
    pub fn homes(&self) -> &[Home]
        ensures value { result.now ≡ self.now.homes }
        ensures long { length result.now ≡ PLACES }
    {
        &self.homes
    }

    // The rows whose notices are owed, in the order of their ends.
    pub fn owed(&self) -> &[EndedRow]
        ensures value { result.now ≡ self.now.owed }
        ensures fits { length result.now ≤ MOST_OWED }
    {
        &self.owed
    }

    // The rows that wait, as they lie: a heap, of which the least stands first.
    pub fn waiting(&self) -> &[EndedRow]
        ensures value { sorted (le_by ended_cmp) result.now ≡ self.now.waiting }
        ensures heaped { Heap (le_by ended_cmp) result.now (length result.now) }
        ensures count { length result.now ≡ length self.now.waiting }
        ensures fits { length result.now ≤ MOST_WAITING }
    {
        self.waiting.rows()
    }

    // How many epochs have begun.
    pub fn begins(&self) -> u64
        ensures value { result ≡ self.now.begins }
        ensures fits { result ≤ MOST_BEGINS }
    {
        self.begins
    }

    // How many epochs have ended. With the open ones they have begun, and the judged, dropped, owed and waiting ones are among them.
    pub fn ends(&self) -> u64
        ensures value { result ≡ self.now.ends }
        ensures begun { open_in self.now.threads + result ≤ self.now.begins }
        ensures ended { ((self.now.judged + self.now.dropped) + length self.now.owed) + length self.now.waiting ≤ result }
    {
        self.ends
    }
}

// How many epochs some threads have open.
fn open_epochs(threads: &[ThreadRow]) -> u64
    requires { sum_by (λ w. length w.epochs) threads.now < 2 ^ 64 }
    ensures { result ≡ sum_by (λ w. length w.epochs) threads.now }
{
    threads.iter().map(|thread| thread.open()).sum()
}
