// An operation performs.
ghost use Rattle.std.specs.Prelude.{◌≡◌, ◌<◌, ◌≤◌, length, Some};
ghost use Rattle.semantics.specs.Effect.{touch as touch_by};
ghost use Rattle.semantics.specs.Puts.{put_clock, put_epochs};
ghost use Rattle.thread.specs.Performing.{used_at, Within, retired};

use super::ThreadRow;
use crate::served::Served;
use semantics::row::{Epoch, Operation};

impl ThreadRow {
    // An operation performs: it is no longer outstanding, the epoch that it uses changes, and the clock is the time.
    pub fn perform(&mut self, op: Operation, served: Served, time: u64)
        requires within { Within served.uses (length self.old.epochs) }
        requires time { self.old.clock ≤ time }
        ensures { self.new ≡ put_clock (put_epochs (retired op.number self.old) (used_at time op served.uses self.old.epochs)) time }
    {
        self.retire(op.number);
        if let Some(i) = served.uses {
            self.touch(i, op, time);
        }
        self.raise(time);
    }

    // The clock is the time, which no step may put back: each says so, since a type for the time would have to hold the thread.
    pub fn raise(&mut self, time: u64)
        requires { self.old.clock ≤ time }
        ensures { self.new ≡ put_clock self.old time }
    {
        self.clock = time;
    }

    // No operation of a number is outstanding any longer.
    fn retire(&mut self, number: u64)
        ensures { self.new ≡ retired number self.old }
    {
        self.outstanding.drop_number(number);
    }

    // What writes puts its value into the copy; the last use is the time.
    fn touch(&mut self, i: usize, op: Operation, time: u64)
        requires within { i < length self.old.epochs }
        requires time { self.old.clock ≤ time }
        ensures { self.new ≡ put_epochs self.old (used_at time op (Some i) self.old.epochs) }
    {
        self.epochs.set(i, touched(self.epochs[i], op, time));
    }
}

// An epoch that an operation uses at a time. A function of its own, as `touch` of the meaning is.
fn touched(epoch: Epoch, op: Operation, time: u64) -> Epoch
    ensures { result ≡ touch_by time op epoch }
{
    let copy = if op.class.writes() {
        op.value
    } else {
        epoch.copy
    };
    Epoch {
        copy,
        used: time,
        ..epoch
    }
}
