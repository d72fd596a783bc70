// Events played on a watch.
ghost use Rattle.trace.specs.Plays.{played, reporting, retry as retried};
ghost use Rattle.trace.specs.Results.{PlaysAs};

use event::event::Event;
use ordering::rule::OrderingRule;
use table::fault::Fault;
use watch::notice::{Notice, Returned};
use watch::watch::Watch;

// Settles and reports the notice again; failing that, drops it, and tells the settle's fault or else the refusal of the report.
fn retry<R: OrderingRule>(watch: &mut Watch<R>, notice: Notice) -> Result<(), Fault>
    ensures played { PlaysAs R.OrderingRule.orders watch.old (λ B s. retried B s notice.number) result watch.new }
{
    let settled = watch.settle();
    match watch.report(notice) {
        Ok(()) => Ok(()),
        // A match and no or_else, as in hand_in.
        Err(Returned { notice, refusal }) => {
            let _ = watch.drop(notice);
            settled?;
            Err(Fault::from(refusal))
        }
    }
}

// Reports the notice of an end.
fn hand_in<R: OrderingRule>(watch: &mut Watch<R>, notice: Notice) -> Result<(), Fault>
    ensures played { PlaysAs R.OrderingRule.orders watch.old (λ B s. reporting B s notice.number) result watch.new }
{
    // A match, since of a closure for `or_else` the check does not learn what it leaves in the watch.
    match watch.report(notice) {
        Ok(()) => Ok(()),
        Err(Returned { notice, refusal: _ }) => retry(watch, notice),
    }
}

// Makes the call of an event; after an end, its notice is reported.
pub fn play<R: OrderingRule>(watch: &mut Watch<R>, event: Event) -> Result<(), Fault>
    ensures played { PlaysAs R.OrderingRule.orders watch.old (λ B s. played B s event) result watch.new }
{
    match event {
        Event::Preset { place, value } => watch.preset(place, value)?,
        Event::Commit {
            thread,
            class,
            place,
            value,
        } => {
            let _number = watch.commit(thread, class, place, value)?;
        }
        Event::Perform {
            thread,
            number,
            time,
        } => {
            let _source = watch.perform(thread, number, time)?;
        }
        Event::Advance { thread, time } => watch.advance(thread, time)?,
        Event::Begin {
            thread,
            kind,
            place,
            value,
            time,
        } => watch.begin(thread, kind, place, value, time)?,
        Event::End {
            thread,
            place,
            value,
            time,
        } => {
            let notice = watch.end(thread, place, value, time)?;
            hand_in(watch, notice)?;
        }
        Event::Settle => {
            let _judged = watch.settle()?;
        }
        Event::Close => watch.close()?,
    }
    Ok(())
}
