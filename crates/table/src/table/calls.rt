// The calls that can break no law: preset, advance, commit and begin.
// Classes and kinds come as numbers, since to refuse an unknown one is the watch's.
// Each check stands apart from its call, since a refused call leaves all as it was.
ghost use Rattle.std.specs.Prelude.{◌≡◌, ◌<◌, None, Some, MatchResult};
ghost use Rattle.semantics.specs.Calls.{preset, advance, commit, begin, taken};
ghost use Rattle.semantics.specs.Kinds.{kind_writes};
ghost use Rattle.semantics.specs.Laws.{Precedes};
ghost use Rattle.semantics.specs.Lists.{first_of};
ghost use Rattle.semantics.specs.Refusals.{refusals};
ghost use Rattle.table.specs.Told.{told, Meets};

use super::Table;
use crate::fault::Fault;
use semantics::kind::EpochKind;
use semantics::row::Epoch;
use semantics::verdict::{Limit, Refusal};
use thread::limits::{MOST_BEGINS, PLACES};

impl Table {
    fn may_preset(&self, place: u64) -> Result<(), Refusal>
        ensures { MatchResult result (λ _. (place < 512) × (first_of (refusals self.now (preset place 0)) ≡ None)) (λ f. first_of (refusals self.now (preset place 0)) ≡ Some f) }
    {
        self.running()?;
        if place >= PLACES as u64 {
            return Err(Refusal::UnknownPlace);
        }
        if self.homes[place as usize].begun {
            return Err(Refusal::AlreadyBegun);
        }
        Ok(())
    }

    // The starting value of a place. Refusals 2, 3, 6, 9.
    pub fn preset(&mut self, place: u64, value: u64) -> Result<(), Fault>
        ensures { (B : Precedes) → Meets B self.old (preset place value) (told (λ _. taken 0) result) self.new }
    {
        self.may_preset(place)?;
        self.homes[place as usize].value = value;
        Ok(())
    }

    // The clock of a thread is the time. Refusals 2, 3, 4, 7.
    pub fn advance(&mut self, thread: u64, time: u64) -> Result<(), Fault>
        ensures { (B : Precedes) → Meets B self.old (advance thread time) (told (λ _. taken 0) result) self.new }
    {
        let t = self.thread(thread)?;
        self.threads[t].may_advance(time)?;
        self.threads[t].raise(time);
        Ok(())
    }

    // The number of the operation. Refusals 2 to 6, and 12 for limits 1 and 2.
    pub fn commit(&mut self, thread: u64, class: u64, place: u64, value: u64) -> Result<u64, Fault>
        ensures { (B : Precedes) → Meets B self.old (commit thread class place value) (told taken result) self.new }
    {
        let t = self.thread(thread)?;
        let class = self.threads[t].may_commit(class, place)?;
        Ok(self.threads[t].commit(class, place, value))
    }

    // An epoch is open. Refusals 2 to 7, 9, and 12 for limits 3 and 4.
    pub fn begin(
        &mut self,
        thread: u64,
        kind: u64,
        place: u64,
        value: u64,
        time: u64,
    ) -> Result<(), Fault>
        ensures { (B : Precedes) → Meets B self.old (begin thread kind place value time) (told (λ _. taken 0) result) self.new }
    {
        let t = self.thread(thread)?;
        let kind = self.threads[t].may_begin(kind, place, time)?;
        if self.begins >= MOST_BEGINS {
            return Err(Fault::Refused(Refusal::Over(Limit::Begins)));
        }
        self.begins += 1;
        self.homes[place as usize].begun = true;
        self.threads[t].begin(opened(kind, place, value, time));
        Ok(())
    }
}

// The epoch that begins.
fn opened(kind: EpochKind, place: u64, value: u64, time: u64) -> Epoch
    ensures { result ≡ record { writes = kind_writes kind; place = place; from = time; start = value; copy = value; used = time } }
{
    Epoch {
        writes: kind.writes(),
        place,
        from: time,
        start: value,
        copy: value,
        used: time,
    }
}
