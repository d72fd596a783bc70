// When a thread refuses a call, and the steps that break no law. Each check stands apart from its step, since a refused call leaves all as it was;
// its clause says side by side what was found and what is refused.
ghost use Rattle.std.specs.Prelude.{◌≡◌, ℕ, ◌+◌, ◌<◌, ◌≤◌, length, position, filter, not, Some, None, OnOk, MatchResult, nat_eq, nat_le, ◌==◌};
ghost use Rattle.semantics.specs.Classes.{op_class};
ghost use Rattle.semantics.specs.Lists.{first_of};
ghost use Rattle.semantics.specs.Puts.{committed as committed_by};
ghost use Rattle.thread.specs.Performing.{with_epoch, without_epoch, Performs, Begins, Ends};
ghost use Rattle.thread.specs.Results.{unless};
ghost use Rattle.thread.specs.Tests.{advance_tests, commit_tests, perform_tests, begin_tests, end_tests, committed_row};

use super::ThreadRow;
use crate::limits::{MOST_COMMITS, MOST_OPEN, PLACES};
use crate::lookups::row_at;
use crate::rows::Rows;
use ordering::class::Class;
use semantics::class::OpClass;
use semantics::kind::EpochKind;
use semantics::row::{Epoch, Operation};
use semantics::verdict::{Limit, Refusal};

impl ThreadRow {
    // Refusal 7.
    pub fn may_advance(&self, time: u64) -> Result<(), Refusal>
        ensures answer { result ≡ unless (first_of (advance_tests time self.now)) }
        ensures time { OnOk result (self.now.clock ≤ time) }
    {
        if time < self.clock {
            return Err(Refusal::PastTime);
        }
        Ok(())
    }

    // The class, or why the commit is refused.
    pub fn may_commit(&self, class: u64, place: u64) -> Result<OpClass, Refusal>
        ensures answer { MatchResult result (λ k. (first_of (commit_tests class place self.now) ≡ None) × (k ≡ op_class class)) (λ f. first_of (commit_tests class place self.now) ≡ Some f) }
        ensures room { OnOk result (length self.now.pending < 64) }
        ensures more { OnOk result (self.now.commits < 1000000) }
    {
        let class = OpClass::from(Class::try_from(class)?);
        if class.touches() && place >= PLACES as u64 {
            return Err(Refusal::UnknownPlace);
        }
        if self.outstanding.is_full() {
            return Err(Refusal::Over(Limit::Outstanding));
        }
        if self.commits >= MOST_COMMITS {
            return Err(Refusal::Over(Limit::Commits));
        }
        Ok(class)
    }

    // The operation is outstanding under the next number.
    pub fn commit(&mut self, class: OpClass, place: u64, value: u64) -> u64
        requires room { length self.old.pending < 64 }
        requires more { self.old.commits < 1000000 }
        ensures answer { result ≡ self.old.commits }
        ensures state { self.new ≡ committed_by self.old (committed_row self.old.commits class place value) }
    {
        let number = self.commits;
        self.outstanding
            .push(committed(number, class, place, value));
        self.commits += 1;
        number
    }

    // The operation, or why its perform is refused.
    pub fn may_perform(&self, number: u64, time: u64) -> Result<Operation, Refusal>
        ensures { MatchResult result (λ o. Performs self.now number time o) (λ f. first_of (perform_tests number time self.now) ≡ Some f) }
    {
        self.may_advance(time)?;
        let Some(i) = self.operation(number) else {
            return Err(Refusal::NotOutstanding);
        };
        Ok(self.operation_in(i))
    }

    // The kind of the epoch, or why the begin is refused.
    pub fn may_begin(&self, kind: u64, place: u64, time: u64) -> Result<EpochKind, Refusal>
        ensures { MatchResult result (λ k. Begins self.now kind place time k) (λ f. first_of (begin_tests kind place time self.now) ≡ Some f) }
    {
        let kind = EpochKind::try_from(kind)?;
        if place >= PLACES as u64 {
            return Err(Refusal::UnknownPlace);
        }
        self.may_advance(time)?;
        if self.epoch(place).is_some() {
            return Err(Refusal::AlreadyBegun);
        }
        if self.epochs_are_full() {
            return Err(Refusal::Over(Limit::Open));
        }
        Ok(kind)
    }

    // Whether as many epochs are open as can be: by the limit, as the commits are tested.
    fn epochs_are_full(&self) -> bool
        ensures { result ≡ nat_le 32 (length self.now.epochs) }
    {
        self.epochs.len() >= MOST_OPEN
    }

    // The epoch is open, and the clock is its begin.
    pub fn begin(&mut self, epoch: Epoch)
        requires room { length self.old.epochs < 32 }
        requires time { (self.old.clock ≤ epoch.from) × (epoch.from ≤ epoch.used) }
        ensures { self.new ≡ with_epoch epoch self.old }
    {
        self.epochs.push(epoch);
        self.clock = epoch.from;
    }

    // The row of the epoch that may end, or why the end is refused.
    pub fn may_end(&self, place: u64, time: u64) -> Result<usize, Refusal>
        ensures { MatchResult result (λ i. Ends self.now place time i) (λ f. first_of (end_tests place time self.now) ≡ Some f) }
    {
        if place >= PLACES as u64 {
            return Err(Refusal::UnknownPlace);
        }
        self.may_advance(time)?;
        self.epoch(place).ok_or(Refusal::NotOpen)
    }

    // The epoch of a place is no longer open, and the clock is the time.
    pub fn end(&mut self, place: u64, time: u64)
        requires { self.old.clock ≤ time }
        ensures fewer { (i : ℕ) → position (λ e. nat_eq e.place place) self.old.epochs ≡ Some i → length self.new.epochs + 1 ≤ length self.old.epochs }
        ensures state { self.new ≡ without_epoch place time self.old }
    {
        drop_place(&mut self.epochs, place);
        self.clock = time;
    }
}

// The epochs without that of a place.
fn drop_place(epochs: &mut Rows<Epoch, MOST_OPEN>, place: u64)
    ensures { epochs.new ≡ filter (λ e. not (e.place == place)) epochs.old }
{
    while let Some(i) = row_at(epochs, place) {
        epochs.remove(i);
    }
}

// What a commit writes down. A barrier's place and value are not looked at.
fn committed(number: u64, class: OpClass, place: u64, value: u64) -> Operation
    ensures { result ≡ committed_row number class place value }
{
    let (place, value) = if class.touches() {
        (place, value)
    } else {
        (0, 0)
    };
    Operation {
        number,
        class,
        place,
        value,
    }
}
