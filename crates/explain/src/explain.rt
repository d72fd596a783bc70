// The explanation of a verdict: its parts are looked up in the text.
ghost use Rattle.std.specs.Prelude.{◌≡◌};
ghost use Rattle.text.specs.Texts.{reading};
ghost use Rattle.explain.specs.Scans.{reading_of};
ghost use Rattle.explain.specs.Parts.{commit_of, operation_in, begin_of, end_of, begin_before, epoch_in, broken, found_on, explained};

use crate::parts::{Begin, Commit, End, Epoch, Explanation, Finding, Operation};
use crate::scan::Recording;
use crate::wanted::Wanted;
use event::event::Event;
use ordering::class::Class;
use semantics::verdict::{Conviction, Law};
use text::reader::Entry;
use verdict::verdict::Verdict;

// What the commit that an event is states. This and the next two make three types from three variants, so one function of them would be no plainer.
fn as_commit(entry: Entry) -> Option<Commit>
    ensures { result ≡ commit_of entry.event }
{
    match entry.event {
        Event::Commit {
            thread: _,
            class,
            place,
            value,
        } => {
            let class = Class::try_from(class).ok()?;
            Some(Commit {
                class,
                place,
                value,
            })
        }
        _ => None,
    }
}

// The begin that an event is.
fn as_begin(entry: Entry) -> Option<Begin>
    ensures { result ≡ begin_of entry.line entry.event }
{
    match entry.event {
        Event::Begin {
            thread: _,
            kind,
            place: _,
            value,
            time,
        } => Some(Begin {
            line: entry.line,
            kind,
            value,
            time,
        }),
        _ => None,
    }
}

// The end that an event is.
fn as_end(entry: Entry) -> Option<End>
    ensures { result ≡ end_of entry.line entry.event }
{
    match entry.event {
        Event::End {
            thread,
            place,
            value: _,
            time,
        } => Some(End {
            line: entry.line,
            thread,
            place,
            time,
        }),
        _ => None,
    }
}

impl Recording<'_> {
    // The operation of a thread under a number.
    fn operation(&self, thread: u64, number: u64) -> Operation
        ensures { result ≡ operation_in (reading_of self.now) thread number }
    {
        let commit = self
            .nth(Wanted::CommitBy(thread), number)
            .and_then(as_commit);
        Operation { number, commit }
    }

    // The begin of the epoch that ends there.
    fn begin_before(&self, end: Option<End>) -> Option<Begin>
        ensures { result ≡ begin_before (reading_of self.now) end }
    {
        let End {
            line,
            thread,
            place,
            time: _,
        } = end?;
        let wanted = Wanted::BeginOf {
            thread,
            place,
            before: line,
        };
        self.latest(wanted).and_then(as_begin)
    }

    // The epoch of a notice.
    fn epoch(&self, notice: u64) -> Epoch
        ensures { result ≡ epoch_in (reading_of self.now) notice }
    {
        let end = self.nth(Wanted::End, notice).and_then(as_end);
        let begin = self.begin_before(end);
        Epoch { notice, begin, end }
    }

    // What a conviction names.
    fn broken_law(&self, conviction: Conviction) -> Finding
        ensures { result ≡ broken (reading_of self.now) conviction.law conviction.thread conviction.number conviction.other }
    {
        let Conviction {
            law,
            thread,
            number,
            other,
        } = conviction;
        match law {
            Law::SamePlace => Finding::SamePlace {
                thread,
                operation: self.operation(thread, number),
                earlier: self.operation(thread, other),
            },
            Law::Ordered => Finding::Ordered {
                thread,
                operation: self.operation(thread, number),
                earlier: self.operation(thread, other),
            },
            Law::NoLeave => Finding::NoLeave {
                thread,
                operation: self.operation(thread, number),
                place: other,
            },
            Law::WrongValue => Finding::WrongValue {
                thread,
                operation: self.operation(thread, number),
                source: other,
            },
            Law::EndTooEarly => Finding::EndTooEarly {
                thread,
                place: number,
                last_use: other,
            },
            Law::WrongEndValue => Finding::WrongEndValue {
                thread,
                place: number,
                copy: other,
            },
            Law::Overlap => Finding::Overlap {
                thread,
                epoch: self.epoch(number),
                until: other,
            },
            Law::WrongBeginValue => Finding::WrongBeginValue {
                thread,
                epoch: self.epoch(number),
                home: other,
            },
            Law::Dropped => Finding::Dropped {
                thread,
                epoch: self.epoch(number),
                place: other,
            },
        }
    }

    // What was found on a line, with the line, the setup and the event there.
    fn found_on(&self, line: u64, finding: Finding) -> Explanation
        ensures { result ≡ found_on (reading_of self.now) line finding }
    {
        let setup = self.setup();
        let call = self.nth(Wanted::OnLine(line), 0).map(|entry| entry.event);
        Explanation {
            line,
            setup,
            call,
            finding,
        }
    }
}

// The explanation of a verdict on a text.
pub fn explain(text: &[u8], verdict: Verdict) -> Explanation
    ensures { result ≡ explained (reading text.now) verdict }
{
    let recording = Recording { text };
    match verdict {
        Verdict::Clean { line } => recording.found_on(line, Finding::Clean),
        Verdict::Convicted { line, conviction } => {
            recording.found_on(line, recording.broken_law(conviction))
        }
        Verdict::Refused { line, refusal } => recording.found_on(line, Finding::Refused(refusal)),
        Verdict::Garbled(fault) => recording.found_on(fault.line, Finding::Garbled(fault.what)),
    }
}
