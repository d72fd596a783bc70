// The work that is measured: rounds of the calls of four threads on one watch.
ghost use Rattle.std.specs.Prelude.{◌≡◌, ◌<◌, ◌≤◌, MatchOption};

use ordering::named::NamedRule;
use ordering::rule::OrderingRule;
use semantics::counts::Counts;
use semantics::verdict::Verdict;
use table::fault::Fault;
use thread::limits::MOST_COMMITS;
use watch::notice::{Notice, Returned};
use watch::threads::Threads;
use watch::watch::Watch;

// The operations of a thread in a round.
const OPERATIONS: u64 = 8;
// The calls of a thread in a round.
const CALLS: u64 = 22;
// The rounds between two settles.
const ROUNDS: u64 = 8;
// The times that a round takes.
const TIMES: u64 = 16;

const THREADS: u64 = 4;

const PLACES: u64 = 512;

// The numbers of classes and kinds, as a recording has them and as the calls of a watch take them: a program that stands for a recorder writes numbers.
const LOAD: u64 = 0;

const STORE: u64 = 1;

const FULL_BARRIER: u64 = 17;

const READ: u64 = 0;

const WRITE: u64 = 1;

// How many operations each thread commits: at most what a thread may.
#[derive(Clone, Copy)]
pub struct Operations {
    pub count: u64,
    ghost few: { count ≤ 1000000 },
}

impl Operations {
    // None where a thread may not commit as many.
    pub fn new(count: u64) -> Option<Operations>
        ensures { MatchOption result (1000000 < count) (λ o. o.count ≡ count) }
    {
        if count > MOST_COMMITS {
            return None;
        }
        Some(Operations { count })
    }
}

// What the work left.
#[derive(Clone, Copy)]
pub struct Done {
    pub events: u64,
    pub verdict: Verdict,
    pub counts: Counts,
}

// The numbers that the calls of a thread in a round are made of.
#[derive(Clone, Copy)]
struct Turn {
    thread: u64,
    written: u64,
    read: u64,
    value: u64,
    number: u64,
    time: u64,
    ghost numbers: { number ≤ 1000000 },
    ghost times: { time ≤ 2000000 },
}

impl Turn {
    fn new(thread: u64, round: u64) -> Turn
        requires { (thread < 4) × (round < 125000) }
    {
        Turn {
            thread,
            written: (round + thread) % PLACES,
            read: (round + PLACES / 2) % PLACES,
            value: round,
            number: OPERATIONS * round,
            time: TIMES * round,
        }
    }

    // Commits eight operations: the second is served by the first, and the fifth is a barrier.
    fn commit<R: OrderingRule>(self, watch: &mut Watch<R>) -> Result<(), Fault> {
        let Turn {
            thread,
            written,
            read,
            value,
            ..
        } = self;
        let _ = watch.commit(thread, STORE, written, value)?;
        let _ = watch.commit(thread, LOAD, written, value)?;
        let _ = watch.commit(thread, LOAD, read, read)?;
        let _ = watch.commit(thread, STORE, written, written)?;
        let _ = watch.commit(thread, FULL_BARRIER, 0, 0)?;
        let _ = watch.commit(thread, LOAD, written, written)?;
        let _ = watch.commit(thread, LOAD, read, read)?;
        let _ = watch.commit(thread, STORE, written, written)?;
        Ok(())
    }

    // Begins a read and a write epoch, and performs the eight operations.
    fn perform<R: OrderingRule>(self, watch: &mut Watch<R>) -> Result<(), Fault> {
        let Turn {
            thread,
            written,
            read,
            number,
            time,
            ..
        } = self;
        watch.begin(thread, READ, read, read, time + 1)?;
        let _ = watch.perform(thread, number + 1, time + 2)?;
        let _ = watch.perform(thread, number + 2, time + 3)?;
        watch.begin(thread, WRITE, written, written, time + 4)?;
        let _ = watch.perform(thread, number, time + 5)?;
        let _ = watch.perform(thread, number + 3, time + 6)?;
        let _ = watch.perform(thread, number + 4, time + 7)?;
        let _ = watch.perform(thread, number + 5, time + 8)?;
        let _ = watch.perform(thread, number + 6, time + 9)?;
        let _ = watch.perform(thread, number + 7, time + 10)?;
        Ok(())
    }

    // Ends both epochs, and reports the later notice first.
    fn end<R: OrderingRule>(self, watch: &mut Watch<R>) -> Result<(), Fault> {
        let Turn {
            thread,
            written,
            read,
            time,
            ..
        } = self;
        let of_read = watch.end(thread, read, read, time + 11)?;
        // A match, as in report.
        let reported = match watch.end(thread, written, written, time + 12) {
            Ok(of_write) => report(watch, of_write),
            Err(fault) => Err(fault),
        };
        report(watch, of_read)?;
        reported
    }
}

// Reports a notice; one that is refused is dropped.
// A match: with closures for `map_err` and `and_then` here, in `end` and in `worked` the same work makes 57 million events a second, and this 65.
fn report<R: OrderingRule>(watch: &mut Watch<R>, notice: Notice) -> Result<(), Fault> {
    match watch.report(notice) {
        Ok(()) => Ok(()),
        Err(Returned { notice, refusal }) => {
            let _ = watch.drop(notice);
            Err(Fault::Refused(refusal))
        }
    }
}

// Gives each place its own number as its starting value.
fn preset<R: OrderingRule>(watch: &mut Watch<R>) -> Result<(), Fault> {
    for place in 0..PLACES {
        watch.preset(place, place)?;
    }
    Ok(())
}

// A round: the calls of each thread in turn, and after each eighth round a settle.
fn round<R: OrderingRule>(watch: &mut Watch<R>, round: u64) -> Result<(), Fault>
    requires { round < 125000 }
{
    for thread in 0..THREADS {
        let turn = Turn::new(thread, round);
        turn.commit(watch)?;
        turn.perform(watch)?;
        turn.end(watch)?;
    }
    if round % ROUNDS == ROUNDS - 1 {
        let _ = watch.settle()?;
    }
    Ok(())
}

// Makes all calls on a new watch.
pub fn work(operations: Operations) -> Result<Done, Fault> {
    let mut watch = Watch::new(NamedRule::Tso, Threads::try_from(THREADS)?);
    let rounds = operations.count / OPERATIONS;
    preset(&mut watch)?;
    for i in 0..rounds {
        round(&mut watch, i)?;
    }
    watch.close()?;
    Ok(Done {
        events: PLACES + rounds * THREADS * CALLS + rounds / ROUNDS + 1,
        verdict: watch.verdict(),
        counts: watch.counts(),
    })
}
