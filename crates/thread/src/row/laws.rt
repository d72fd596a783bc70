// The laws that a thread's operations and epochs have to keep.
ghost use Rattle.std.specs.Prelude.{◌≡◌, ◌<◌, length, Some, None, MatchResult};
ghost use Rattle.semantics.specs.Laws.{by_rule, earlier, perform_laws, end_laws};
ghost use Rattle.thread.specs.Attempt.{earlier_of};
ghost use Rattle.thread.specs.Performing.{epoch_in, Serves, Spans};

use super::ThreadRow;
use crate::attempt::Attempt;
use crate::lookups::front;
use crate::served::Served;
use crate::span::Span;
use ordering::rule::OrderingRule;
use semantics::row::Operation;
use semantics::verdict::{Conviction, Law};

impl ThreadRow {
    // An operation is to perform.
    fn attempt(&self, thread: u64, op: Operation) -> Attempt<'_>
        ensures thread { result.thread ≡ thread }
        ensures op { result.op ≡ op }
        ensures earlier { earlier_of result ≡ earlier self.now op.number }
        ensures epochs { result.epochs.now ≡ self.now.epochs }
    {
        Attempt {
            thread,
            op,
            outstanding: front(&self.outstanding, op.number),
            epochs: &self.epochs,
        }
    }

    // Laws 21 to 24: what the operation answers and which epoch it uses, or the law that it breaks.
    pub fn lawful<R: OrderingRule>(
        &self,
        rule: &R,
        thread: u64,
        op: Operation,
    ) -> Result<Served, Conviction>
        ensures { MatchResult result (λ s. (perform_laws (by_rule (R.OrderingRule.orders rule.now)) self.now thread op ≡ None) × Serves self.now op s) (λ c. perform_laws (by_rule (R.OrderingRule.orders rule.now)) self.now thread op ≡ Some c) }
    {
        self.attempt(thread, op).lawful(rule)
    }

    // Laws 25 and 26: the span of the epoch in a row, if it may end with this value at this time.
    pub fn span(&self, thread: u64, i: usize, value: u64, time: u64) -> Result<Span, Conviction>
        requires { i < length self.now.epochs }
        ensures { MatchResult result (λ s. Spans thread (epoch_in self.now i) value time s) (λ c. end_laws thread (epoch_in self.now i) value time ≡ Some c) }
    {
        // Of the two convictions no field but the thread and the place is the same.
        let epoch = self.epochs[i];
        if time <= epoch.used {
            return Err(Conviction {
                law: Law::EndTooEarly,
                thread,
                number: epoch.place,
                other: epoch.used,
            });
        }
        if value != epoch.copy {
            return Err(Conviction {
                law: Law::WrongEndValue,
                thread,
                number: epoch.place,
                other: epoch.copy,
            });
        }
        Ok(Span::new(epoch.from, time))
    }
}
