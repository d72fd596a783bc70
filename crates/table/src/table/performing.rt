// An operation performs.
ghost use Rattle.std.specs.Prelude.{◌≡◌, Some, MatchResult};
ghost use Rattle.semantics.specs.Calls.{perform, taken};
ghost use Rattle.semantics.specs.Laws.{by_rule};
ghost use Rattle.semantics.specs.Lists.{first_of};
ghost use Rattle.semantics.specs.Refusals.{refusals};
ghost use Rattle.thread.specs.Performing.{performed_number};
ghost use Rattle.table.specs.Told.{told, Meets};
ghost use Rattle.table.specs.Checks.{MayPerform};

use super::Table;
use crate::fault::Fault;
use ordering::rule::OrderingRule;
use semantics::row::Operation;
use semantics::verdict::Refusal;
use thread::served::Performed;

impl Table {
    // The row of the thread and the operation, or why the perform is refused.
    fn may_perform(
        &self,
        thread: u64,
        number: u64,
        time: u64,
    ) -> Result<(usize, Operation), Refusal>
        ensures { MatchResult result (λ p. MayPerform self.now thread number time p.0 p.1) (λ f. first_of (refusals self.now (perform thread number time)) ≡ Some f) }
    {
        let t = self.thread(thread)?;
        let op = self.threads[t].may_perform(number, time)?;
        Ok((t, op))
    }

    // Where the value came from. Refusals 2, 3, 4, 7, 8; laws 21 to 24.
    pub fn perform<R: OrderingRule>(
        &mut self,
        rule: &R,
        thread: u64,
        number: u64,
        time: u64,
    ) -> Result<Performed, Fault>
        ensures { Meets (by_rule (R.OrderingRule.orders rule.now)) self.old (perform thread number time) (told (λ p. taken (performed_number p)) result) self.new }
    {
        let (t, op) = self.may_perform(thread, number, time)?;
        // A match, as in settle.
        match self.threads[t].lawful(rule, thread, op) {
            Ok(served) => {
                self.threads[t].perform(op, served, time);
                Ok(served.answer)
            }
            Err(conviction) => Err(self.convict(conviction)),
        }
    }
}
