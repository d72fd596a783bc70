// An operation that is to perform, with what its laws look at.
ghost use Rattle.std.specs.Prelude.{◌≡◌, None, MatchOption};
ghost use Rattle.semantics.specs.declared.class.OpClass.TheVariants as class;
ghost use Rattle.semantics.specs.Laws.{blame, by_rule};
ghost use Rattle.thread.specs.Attempt.{place_law_of, order_law_of, leave_law_of, laws_of, source_of, earlier_of, last_writer as writer, SourcedBy, Serving};
ghost use Rattle.thread.specs.Results.{unless};

use crate::lookups::{first_at, first_before, last_writer, row_at};
use crate::served::{Performed, Served};
use ordering::rule::OrderingRule;
use semantics::class::OpClass;
use semantics::row::{Epoch, Operation};
use semantics::verdict::{Conviction, Law};

// An operation of a thread, outstanding operations among which are all that stand before it in program order, and the thread's open epochs.
#[derive(Clone, Copy)]
pub(crate) struct Attempt<'a> {
    pub(crate) thread: u64,
    pub(crate) op: Operation,
    pub(crate) outstanding: &'a [Operation],
    pub(crate) epochs: &'a [Epoch],
}

impl Attempt<'_> {
    // Laws 21 to 24: what the operation answers and which epoch it uses, or the law that it breaks.
    pub(crate) fn lawful<R: OrderingRule>(&self, rule: &R) -> Result<Served, Conviction>
        ensures { Serving self.now (laws_of (by_rule (R.OrderingRule.orders rule.now)) self.now) result }
    {
        self.keeps_place()?;
        self.keeps_order(rule)?;
        self.serve()
    }

    // Law 21.
    fn keeps_place(&self) -> Result<(), Conviction>
        ensures { result ≡ unless (place_law_of self.now) }
    {
        if !self.op.class.writes() {
            return Ok(());
        }
        self.blame(
            Law::SamePlace,
            first_at(self.outstanding, self.op.number, self.op.place),
        )
    }

    // Law 22.
    fn keeps_order<R: OrderingRule>(&self, rule: &R) -> Result<(), Conviction>
        ensures { result ≡ unless (order_law_of (by_rule (R.OrderingRule.orders rule.now)) self.now) }
    {
        self.blame(
            Law::Ordered,
            first_before(self.outstanding, self.op.number, rule, self.op.class.face()),
        )
    }

    // Laws 23 and 24. Each class is named, so that none is passed over when there is one more; loads and stores state one clause, each under its class.
    fn serve(&self) -> Result<Served, Conviction>
        ensures { Serving self.now (leave_law_of self.now) result }
    {
        match self.op.class {
            OpClass::Load => self.load(),
            OpClass::Store => self.store(),
            OpClass::Barrier(_) => Ok(Served {
                answer: Performed::Done,
                uses: None,
            }),
        }
    }

    // Laws 23 and 24 for a load.
    fn load(&self) -> Result<Served, Conviction>
        requires { self.now.op.class ≡ class.Load }
        ensures { Serving self.now (leave_law_of self.now) result }
    {
        match self.source() {
            Some((value, served)) => {
                if value != self.op.value {
                    return Err(self.broken(Law::WrongValue, value));
                }
                Ok(served)
            }
            None => Err(self.broken(Law::NoLeave, self.op.place)),
        }
    }

    // A load's value: from the last earlier outstanding store to its place, failing that from the copy of the open epoch there.
    fn source(&self) -> Option<(u64, Served)>
        ensures { MatchOption result (source_of self.now ≡ None) (λ p. SourcedBy (writer (earlier_of self.now) self.now.op) self.now.epochs.now self.now.op p.0 p.1) }
    {
        match last_writer(self.outstanding, self.op.number, self.op.place) {
            Some(store) => Some((
                store.value,
                Served {
                    answer: Performed::Forwarded,
                    uses: None,
                },
            )),
            None => {
                let i = row_at(self.epochs, self.op.place)?;
                Some((
                    self.epochs[i].copy,
                    Served {
                        answer: Performed::Copied,
                        uses: Some(i),
                    },
                ))
            }
        }
    }

    // Law 23 for a store.
    fn store(&self) -> Result<Served, Conviction>
        requires { self.now.op.class ≡ class.Store }
        ensures { Serving self.now (leave_law_of self.now) result }
    {
        match row_at(self.epochs, self.op.place) {
            Some(i) if self.epochs[i].writes => Ok(Served {
                answer: Performed::Done,
                uses: Some(i),
            }),
            _ => Err(self.broken(Law::NoLeave, self.op.place)),
        }
    }

    // The conviction for a law that sets the operation against another, where there is one.
    fn blame(&self, law: Law, other: Option<Operation>) -> Result<(), Conviction>
        ensures { result ≡ unless (blame law self.now.thread self.now.op.number other) }
    {
        match other {
            Some(other) => Err(self.broken(law, other.number)),
            None => Ok(()),
        }
    }

    // The conviction for a law that the operation breaks.
    fn broken(&self, law: Law, other: u64) -> Conviction
        ensures { result ≡ record { law = law; thread = self.now.thread; number = self.now.op.number; other = other } }
    {
        Conviction {
            law,
            thread: self.thread,
            number: self.op.number,
            other,
        }
    }
}
