// Ending epochs, and what becomes of their notices.
ghost use Rattle.std.specs.Prelude.{◌≡◌, ◌<◌, None, Some, length, MatchResult};
ghost use Rattle.semantics.specs.Calls.{end, report, drop, taken};
ghost use Rattle.semantics.specs.Laws.{Precedes};
ghost use Rattle.semantics.specs.Lists.{first_of};
ghost use Rattle.semantics.specs.Refusals.{refusals};
ghost use Rattle.table.specs.Told.{told, tells, Meets};
ghost use Rattle.table.specs.Checks.{MayEnd, Owes};

use super::Table;
use crate::fault::Fault;
use ended::owed::{drop_row, row_of};
use ended::row::EndedRow;
use semantics::verdict::{Conviction, Law, Limit, Refusal, Verdict};

impl Table {
    // The rows of the thread and of the epoch that may end, or why the end is refused.
    #[tactic(auto, using(crate::proofs::Threads::ends_place, crate::proofs::Threads::ends_fewer))]
    fn may_end(&self, thread: u64, place: u64, time: u64) -> Result<(usize, usize), Refusal>
        ensures { MatchResult result (λ p. MayEnd self.now thread place time p.0 p.1) (λ f. first_of (refusals self.now (end thread place 0 time)) ≡ Some f) }
    {
        let t = self.thread(thread)?;
        let i = self.threads[t].may_end(place, time)?;
        if self.owed.is_full() {
            return Err(Refusal::Over(Limit::Owed));
        }
        Ok((t, i))
    }

    // The number of the notice.
    pub fn end(&mut self, thread: u64, place: u64, value: u64, time: u64) -> Result<u64, Fault>
        ensures { (B : Precedes) → Meets B self.old (end thread place value time) (told taken result) self.new }
    {
        let (t, i) = self.may_end(thread, place, time)?;
        // A match, as in settle.
        match self.threads[t].span(thread, i, value, time) {
            Ok(span) => {
                let epoch = self.threads[t].epoch_in(i);
                let number = self.ends;
                self.threads[t].end(place, time);
                self.ends += 1;
                self.owed.push(EndedRow {
                    span,
                    number,
                    thread,
                    writes: epoch.writes,
                    place: epoch.place,
                    start: epoch.start,
                    last: value,
                });
                Ok(number)
            }
            Err(conviction) => Err(self.convict(conviction)),
        }
    }

    // The row of an owed notice; refusal 11.
    fn owes(&self, number: u64) -> Result<usize, Refusal>
        ensures { MatchResult result (λ i. (first_of (refusals self.now (drop number)) ≡ None) × Owes self.now number i) (λ f. first_of (refusals self.now (drop number)) ≡ Some f) }
    {
        row_of(&self.owed, number).ok_or(Refusal::NotOwed)
    }

    // The row of the notice, or why the report is refused.
    fn may_report(&self, number: u64) -> Result<usize, Refusal>
        ensures { MatchResult result (λ i. (first_of (refusals self.now (report number)) ≡ None) × Owes self.now number i × (length self.now.waiting < 128)) (λ f. first_of (refusals self.now (report number)) ≡ Some f) }
    {
        self.running()?;
        let i = self.owes(number)?;
        if self.waiting.is_full() {
            return Err(Refusal::Over(Limit::Waiting));
        }
        Ok(i)
    }

    // A notice goes among the waiting. Refusals 2, 3, 11, and 12 for limit 6.
    #[tactic(auto, using(crate::proofs::Notices::reports))]
    pub fn report(&mut self, number: u64) -> Result<(), Refusal>
        ensures { (B : Precedes) → Meets B self.old (report number) (tells (λ _. taken 0) result) self.new }
    {
        let i = self.may_report(number)?;
        let row = self.owed[i];
        drop_row(&mut self.owed, number);
        self.waiting.add(row);
        Ok(())
    }

    // Law 29, unless the watch is convicted already.
    #[tactic(auto, using(crate::proofs::Notices::drop_convicts))]
    pub fn drop_notice(&mut self, number: u64) -> Result<(), Fault>
        ensures { (B : Precedes) → Meets B self.old (drop number) (told (λ _. taken 0) result) self.new }
    {
        let i = self.owes(number)?;
        let ended = self.owed[i];
        drop_row(&mut self.owed, number);
        self.dropped += 1;
        match self.verdict {
            Verdict::Guilty(_) => Ok(()),
            Verdict::Running | Verdict::Clean => Err(self.convict(Conviction {
                law: Law::Dropped,
                thread: ended.thread,
                number,
                other: ended.place,
            })),
        }
    }
}
