// Drives a watch through many calls: `bench [OPERATIONS [REPEATS]]`, and with REPEATS it says how long that took.
#![tactic(auto)]

use anyhow::{anyhow, bail};
use std::env;
use std::time::Instant;
use work::{Done, Operations, work};

mod work;

// The operations of each thread where none are given.
const OPERATIONS: u64 = 1000;

// The work, which has to end clean.
fn worked(rt: &HostRuntime, operations: Operations) -> anyhow::Result<Done> {
    // A match, as in `report` of work.rt.
    match work(operations) {
        Ok(done) => Ok(done),
        Err(fault) => Err(anyhow!(format!(in rt.alloc(); "a call was not taken: {fault:?}")?)),
    }
}

// Does the work again and again, and prints the rate.
fn timed(rt: &HostRuntime, operations: Operations, repeats: u64) -> anyhow::Result<()> {
    let start = Instant::now(rt)?;
    let mut events = 0u64;
    for _ in 0..repeats {
        events = events.saturating_add(worked(rt, operations)?.events);
    }
    let seconds = start.elapsed(rt)?.as_secs_f64();
    let rate = std::num::nearest_u64_to_f64(events) / seconds;
    let count = operations.count;
    println!(rt;
        "{count} operations per thread, {events} events, {seconds:.3} s, {rate:.0} events per second"
    )?;
    Ok(())
}

fn run(rt: &HostRuntime) -> anyhow::Result<()> {
    let mut given = env::args(rt)?.skip(1);
    let count = match given.next() {
        Some(text) => text.parse::<u64>()?,
        None => OPERATIONS,
    };
    let Some(operations) = Operations::new(count) else {
        bail!("a thread can commit 1000000 operations at most");
    };
    if let Some(text) = given.next() {
        return timed(rt, operations, text.parse::<u64>()?);
    }
    let Done {
        events,
        counts,
        verdict,
    } = worked(rt, operations)?;
    let judged = counts.judged;
    println!(rt;
        "{count} operations per thread, {events} events, {judged} epochs judged, {verdict:?}"
    )?;
    Ok(())
}

fn main(rt: HostRuntime) -> anyhow::Result<()> {
    run(&rt)
}
