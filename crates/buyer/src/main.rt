// A program made with the library: a buyer's own ordering rule, written as a table of bytes, over two small records.
#![tactic(auto)]

use ordering::bytes::ByteTable;
use semantics::counts::Counts;
use semantics::verdict::{Conviction, Verdict};
use std::{fmt, io};
use table::fault::Fault;
use thread::served::Performed;
use watch::notice::{Notice, Returned};
use watch::threads::Threads;
use watch::watch::Watch;

// A byte for each pair of classes. The last stands for a store and a later load, which the buyer leaves unordered;
// the pairs of which the bytes are missing are ordered.
const RULE: [u8; 19] = [1, 1, 1, 1, 1, 1, 1, 1, 1, 1, 1, 1, 1, 1, 1, 1, 1, 1, 0];

// The numbers of classes and kinds, as a recording has them and as the calls of a watch take them: a program that stands for a recorder writes numbers.
const LOAD: u64 = 0;

const STORE: u64 = 1;

const FULL_BARRIER: u64 = 17;

const READ: u64 = 0;

const WRITE: u64 = 1;

// What a record came to.
#[derive(Drop)]
struct Story {
    first_load: Performed,
    second_load: Performed,
    counts: Counts,
    verdict: Verdict,
}

// Reports a notice, or drops it where the report is refused.
fn hand_in(watch: &mut Watch<ByteTable<'_>>, notice: Notice) -> Result<(), Fault> {
    watch
        .report(notice)
        .or_else(|Returned { notice, refusal: _ }| watch.drop(notice))
}

// Thread 0 stores 7 and reads it at once, from its own store; then thread 1 reads it in an epoch of its own.
fn handing_over() -> Result<Story, Fault> {
    let mut watch = Watch::new(ByteTable { bytes: &RULE }, Threads::try_from(2)?);
    watch.preset(3, 5)?;
    let store = watch.commit(0, STORE, 3, 7)?;
    let load = watch.commit(0, LOAD, 3, 7)?;
    let first_load = watch.perform(0, load, 1)?;
    watch.begin(0, WRITE, 3, 5, 2)?;
    let _ = watch.perform(0, store, 3)?;
    let written = watch.end(0, 3, 7, 4)?;
    hand_in(&mut watch, written)?;
    let other = watch.commit(1, LOAD, 3, 7)?;
    watch.begin(1, READ, 3, 7, 4)?;
    let second_load = watch.perform(1, other, 5)?;
    let read = watch.end(1, 3, 7, 6)?;
    hand_in(&mut watch, read)?;
    watch.close()?;
    Ok(Story {
        first_load,
        second_load,
        counts: watch.counts(),
        verdict: watch.verdict(),
    })
}

// A load goes past a barrier, which the rule forbids.
fn overtaking() -> Result<Performed, Fault> {
    let mut watch = Watch::new(ByteTable { bytes: &RULE }, Threads::try_from(1)?);
    let _ = watch.commit(0, STORE, 3, 7)?;
    let _ = watch.commit(0, FULL_BARRIER, 0, 0)?;
    let load = watch.commit(0, LOAD, 4, 0)?;
    watch.begin(0, READ, 4, 0, 1)?;
    watch.perform(0, load, 2)
}

// A word for an enum of the library, which this program alone shows.
fn source(load: Performed) -> &'static str {
    match load {
        Performed::Done => "nothing",
        Performed::Forwarded => "its thread's store",
        Performed::Copied => "the copy",
    }
}

// The same for what a watch has concluded.
fn word(verdict: Verdict) -> &'static str {
    match verdict {
        Verdict::Running => "running",
        Verdict::Clean => "clean",
        Verdict::Guilty(_) => "convicted",
    }
}

// A fault in the words of this program.
#[derive(Clone, Copy)]
struct Told(Fault);

// Writes a refusal by its number, and a conviction by its law and what it names.
impl fmt::Display for Told {
    fn fmt<W: fmt::Write>(&self, f: &mut fmt::Formatter<W>) -> fmt::Result {
        match self.0 {
            Fault::Refused(refusal) => write!(f, "refused: {}", refusal.number()),
            Fault::Convicted(
                Conviction {
                    law,
                    thread,
                    number,
                    other,
                },
            ) => write!(
                f,
                "convicted: law {}, thread {thread}, number {number}, other {other}",
                law.number()
            ),
        }
    }
}

fn main(rt: HostRuntime) -> io::Result<()> {
    match handing_over() {
        Ok(story) => {
            println!(rt; "thread 0 read {}", source(story.first_load))?;
            println!(rt; "thread 1 read {}", source(story.second_load))?;
            println!(rt;
                "judged {}, dropped {}",
                story.counts.judged, story.counts.dropped
            )?;
            println!(rt; "{}", word(story.verdict))?;
        }
        Err(fault) => println!(rt; "{}", Told(fault))?,
    }
    match overtaking() {
        Ok(load) => println!(rt; "the load read {}", source(load)),
        Err(fault) => println!(rt; "{}", Told(fault)),
    }
}
