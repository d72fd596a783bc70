// The calls of a watch, on whatever numbers: the parameters are the subject's own. Each has its two clauses whole, so that what it answers and promises is read there.
ghost use Rattle.std.specs.Prelude.{◌≡◌};
ghost use Rattle.semantics.specs.Calls.{preset, commit, perform, advance, begin, end, report, drop, settle, close, taken};
ghost use Rattle.semantics.specs.Calls as calls;
ghost use Rattle.table.specs.Told.{told};
ghost use Rattle.thread.specs.Performing.{performed_number};
ghost use Rattle.watch.specs.Notices.{report_says, HandsBack};
ghost use Rattle.watch.specs.Promises.{Promised, ClosePromised};
ghost use Rattle.watch.specs.Took.{Took};

use super::Watch;
use crate::notice::{Notice, Returned};
use ordering::rule::OrderingRule;
use table::fault::Fault;
use thread::served::Performed;

impl<R: OrderingRule> Watch<R> {
    // Sets the starting value of a place. Refusals 2, 3, 6, 9.
    #[tactic(auto, using(crate::proofs::Promising::promised))]
    pub fn preset(&mut self, place: u64, value: u64) -> Result<(), Fault>
        ensures took { Took R.OrderingRule.orders self.old (preset place value) (told (λ _. taken 0) result) self.new }
        ensures promises { Promised R.OrderingRule.orders self.old (preset place value) (told (λ _. taken 0) result) self.new }
    {
        self.table.preset(place, value)
    }

    // An operation commits, and is outstanding under the number that it answers. Refusals 2 to 6, and 12 for limits 1 and 2.
    #[tactic(auto, using(crate::proofs::Promising::promised))]
    pub fn commit(&mut self, thread: u64, class: u64, place: u64, value: u64) -> Result<u64, Fault>
        ensures took { Took R.OrderingRule.orders self.old (commit thread class place value) (told taken result) self.new }
        ensures promises { Promised R.OrderingRule.orders self.old (commit thread class place value) (told taken result) self.new }
    {
        self.table.commit(thread, class, place, value)
    }

    // An outstanding operation performs. Refusals 2, 3, 4, 7, 8; laws 21 to 24.
    #[tactic(auto, using(crate::proofs::Promising::promised))]
    pub fn perform(&mut self, thread: u64, number: u64, time: u64) -> Result<Performed, Fault>
        ensures took { Took R.OrderingRule.orders self.old (perform thread number time) (told (λ p. taken (performed_number p)) result) self.new }
        ensures promises { Promised R.OrderingRule.orders self.old (perform thread number time) (told (λ p. taken (performed_number p)) result) self.new }
    {
        self.table.perform(&self.rule, thread, number, time)
    }

    // Raises a thread's clock. Refusals 2, 3, 4, 7.
    #[tactic(auto, using(crate::proofs::Promising::promised))]
    pub fn advance(&mut self, thread: u64, time: u64) -> Result<(), Fault>
        ensures took { Took R.OrderingRule.orders self.old (advance thread time) (told (λ _. taken 0) result) self.new }
        ensures promises { Promised R.OrderingRule.orders self.old (advance thread time) (told (λ _. taken 0) result) self.new }
    {
        self.table.advance(thread, time)
    }

    // An epoch begins. Refusals 2 to 7, 9, and 12 for limits 3 and 4.
    #[tactic(auto, using(crate::proofs::Promising::promised))]
    pub fn begin(
        &mut self,
        thread: u64,
        kind: u64,
        place: u64,
        value: u64,
        time: u64,
    ) -> Result<(), Fault>
        ensures took { Took R.OrderingRule.orders self.old (begin thread kind place value time) (told (λ _. taken 0) result) self.new }
        ensures promises { Promised R.OrderingRule.orders self.old (begin thread kind place value time) (told (λ _. taken 0) result) self.new }
    {
        self.table.begin(thread, kind, place, value, time)
    }

    // An epoch ends, and hands out its notice. Refusals 2, 3, 4, 6, 7, 10, and 12 for limit 5; laws 25 and 26.
    #[tactic(auto, using(crate::proofs::Promising::promised))]
    pub fn end(&mut self, thread: u64, place: u64, value: u64, time: u64) -> Result<Notice, Fault>
        ensures took { Took R.OrderingRule.orders self.old (end thread place value time) (told (λ n. taken n.number) result) self.new }
        ensures promises { Promised R.OrderingRule.orders self.old (end thread place value time) (told (λ n. taken n.number) result) self.new }
    {
        let number = self.table.end(thread, place, value, time)?;
        Ok(Notice { number })
    }

    // A notice goes among the waiting; a refused one is handed back. Refusals 2, 3, 11, and 12 for limit 6.
    #[tactic(auto, using(crate::proofs::Promising::promised))]
    pub fn report(&mut self, notice: Notice) -> Result<(), Returned>
        ensures took { Took R.OrderingRule.orders self.old (report notice.number) (report_says result) self.new }
        ensures promises { Promised R.OrderingRule.orders self.old (report notice.number) (report_says result) self.new }
        ensures back { HandsBack notice result }
    {
        let Notice { number } = notice;
        // A match: through a closure for map_err the check does not follow what the report said.
        match self.table.report(number) {
            Ok(()) => Ok(()),
            Err(refusal) => Err(Returned {
                notice: Notice { number },
                refusal,
            }),
        }
    }

    // A notice is dropped; it is spent in any case. Refusal 11; law 29, unless the watch is convicted already.
    #[tactic(auto, using(crate::proofs::Promising::promised))]
    pub fn drop(&mut self, notice: Notice) -> Result<(), Fault>
        ensures took { Took R.OrderingRule.orders self.old (drop notice.number) (told (λ _. taken 0) result) self.new }
        ensures promises { Promised R.OrderingRule.orders self.old (drop notice.number) (told (λ _. taken 0) result) self.new }
    {
        let Notice { number } = notice;
        self.table.drop_notice(number)
    }

    // Judges the waiting that begin before the safe time, and answers how many. Refusals 2 and 3; laws 27 and 28.
    #[tactic(auto, using(crate::proofs::Promising::promised))]
    pub fn settle(&mut self) -> Result<u64, Fault>
        ensures took { Took R.OrderingRule.orders self.old settle (told taken result) self.new }
        ensures promises { Promised R.OrderingRule.orders self.old settle (told taken result) self.new }
    {
        self.table.settle()
    }

    // Judges all that wait, and closes the watch. Refusals 2, 3, 13; laws 27 and 28.
    #[tactic(auto, using(crate::proofs::Promising::close_promised))]
    pub fn close(&mut self) -> Result<(), Fault>
        ensures took { Took R.OrderingRule.orders self.old close (told (λ _. calls.clean) result) self.new }
        ensures promises { ClosePromised R.OrderingRule.orders self.old (told (λ _. calls.clean) result) self.new }
    {
        self.table.close()
    }
}
