// The sentence of an explanation.
use crate::operation::{NamedEpoch, NamedOperation};
use crate::words::{
    begun_words, fault_words, kinds_words, lack_words, limit_words, places_words, threads_words,
};
use event::event::Row;
use explain::parts::{Explanation, Finding};
use semantics::verdict::Refusal;
use std::fmt;

// The line of a fault that belongs to the whole text.
const WHOLE_TEXT: u64 = 0;

// What an explanation says in words.
#[derive(Clone, Copy)]
pub struct Sentence(pub Explanation);

impl Sentence {
    // The numbers of the event on the line, 0 where there is none.
    fn row(&self) -> Row {
        self.0.call.map(Row::from).unwrap_or_default()
    }

    // The name of the rule.
    fn rule(&self) -> &'static str {
        self.0.setup.map_or("the rule", |setup| setup.rule.name())
    }

    // The number of threads.
    fn threads(&self) -> u64 {
        self.0.setup.map_or(0, |setup| setup.threads)
    }

    // What law the performing of an operation broke.
    fn write_perform<W: fmt::Write>(&self, f: &mut fmt::Formatter<W>) -> fmt::Result {
        match self.0.finding {
            Finding::SamePlace {
                thread,
                operation,
                earlier,
            } => {
                let operation = NamedOperation(operation);
                let earlier = NamedOperation(earlier);
                write!(
                    f,
                    "thread {thread} performed its {operation} while its earlier {earlier} was outstanding (law 21: operations on one place stay in order)"
                )
            }
            Finding::Ordered {
                thread,
                operation,
                earlier,
            } => {
                let operation = NamedOperation(operation);
                let earlier = NamedOperation(earlier);
                let rule = self.rule();
                write!(
                    f,
                    "thread {thread} performed its {operation} while its earlier {earlier}, which {rule} orders before it, was outstanding (law 22)"
                )
            }
            Finding::NoLeave {
                thread,
                operation,
                place,
            } => {
                let lack = lack_words(operation);
                let operation = NamedOperation(operation);
                write!(
                    f,
                    "thread {thread} performed its {operation}, but {lack} place {place} (law 23)"
                )
            }
            Finding::WrongValue {
                thread,
                operation,
                source,
            } => {
                let value = operation.commit.map_or(0, |commit| commit.value);
                let operation = NamedOperation(operation);
                write!(
                    f,
                    "thread {thread} performed its {operation} with the value {value}, but the value there was {source} (law 24)"
                )
            }
            // The other findings have writers of their own: one match of them all is a function of a hundred lines.
            _ => Ok(()),
        }
    }

    // What law an epoch broke.
    fn write_epoch<W: fmt::Write>(&self, f: &mut fmt::Formatter<W>) -> fmt::Result {
        let Row {
            thread: _,
            what: _,
            place: _,
            value,
            time,
        } = self.row();
        match self.0.finding {
            Finding::EndTooEarly {
                thread,
                place,
                last_use,
            } => {
                write!(
                    f,
                    "thread {thread} ended its epoch on place {place} at time {time}, which is not later than its last use at time {last_use} (law 25)"
                )
            }
            Finding::WrongEndValue {
                thread,
                place,
                copy,
            } => {
                write!(
                    f,
                    "thread {thread} ended its epoch on place {place} with the value {value}, but its copy was {copy} (law 26)"
                )
            }
            Finding::Overlap {
                thread,
                epoch,
                until,
            } => {
                let from = epoch.begin.map_or(0, |begin| begin.time);
                let epoch = NamedEpoch(epoch);
                write!(
                    f,
                    "thread {thread}'s {epoch} began at time {from}, before time {until}, when an epoch ended that it may not overlap (law 27)"
                )
            }
            Finding::WrongBeginValue {
                thread,
                epoch,
                home,
            } => {
                let value = epoch.begin.map_or(0, |begin| begin.value);
                let epoch = NamedEpoch(epoch);
                write!(
                    f,
                    "thread {thread}'s {epoch} began with the value {value}, but the place held {home} (law 28)"
                )
            }
            Finding::Dropped {
                thread,
                epoch,
                place,
            } => {
                let epoch = NamedEpoch(epoch);
                write!(
                    f,
                    "the notice of thread {thread}'s {epoch} was dropped, and so place {place} was never judged (law 29)"
                )
            }
            _ => Ok(()),
        }
    }

    // Why a call was refused.
    fn write_refusal<W: fmt::Write>(
        &self,
        refusal: Refusal,
        f: &mut fmt::Formatter<W>,
    ) -> fmt::Result {
        let Row {
            thread,
            what,
            place,
            value: _,
            time,
        } = self.row();
        let threads = self.threads();
        match refusal {
            Refusal::ThreadCount => {
                let bound = threads_words();
                write!(f, "a recording has {bound}, and this one claims {threads}")
            }
            Refusal::Convicted => write!(f, "the watch is convicted already"),
            Refusal::Closed => write!(f, "the watch is closed already"),
            Refusal::UnknownThread => write!(
                f,
                "there is no thread {thread}: the number of threads is {threads}, and the first is thread 0"
            ),
            Refusal::UnknownClass => {
                let kinds = kinds_words(self.0.call);
                write!(f, "{what} is no {kinds}")
            }
            Refusal::UnknownPlace => {
                let range = places_words();
                write!(f, "there is no place {place}: places are numbered {range}")
            }
            Refusal::PastTime => write!(f, "time {time} is below the clock of thread {thread}"),
            Refusal::NotOutstanding => write!(
                f,
                "thread {thread} has no outstanding operation number {what}"
            ),
            Refusal::AlreadyBegun => {
                let begun = begun_words(self.0.call);
                write!(f, "{begun} place {place}")
            }
            Refusal::NotOpen => write!(f, "thread {thread} has no epoch open on place {place}"),
            Refusal::NotOwed => write!(f, "no notice is owed under the number"),
            Refusal::Over(limit) => {
                let bound = limit_words(limit);
                write!(f, "a limit would be passed: {bound}")
            }
            Refusal::Unfinished => write!(
                f,
                "the recording is closed while an operation is outstanding, an epoch open or a notice owed"
            ),
            Refusal::NoSpace => write!(f, "the line is longer than the space for it"),
        }
    }
}

// Writes the sentence, with its line.
impl fmt::Display for Sentence {
    fn fmt<W: fmt::Write>(&self, f: &mut fmt::Formatter<W>) -> fmt::Result {
        let line = self.0.line;
        if line > WHOLE_TEXT {
            write!(f, "line {line}: ")?;
        }
        match self.0.finding {
            Finding::Clean => {
                let rule = self.rule();
                write!(f, "the recording is closed, and breaks no law under {rule}")
            }
            Finding::Refused(refusal) => {
                self.write_refusal(refusal, f)?;
                let code = refusal.number();
                write!(f, " (refusal {code})")
            }
            Finding::Garbled(what) => {
                let words = fault_words(what);
                let code = what.code();
                write!(f, "{words} (fault {code})")
            }
            Finding::SamePlace { .. }
            | Finding::Ordered { .. }
            | Finding::NoLeave { .. }
            | Finding::WrongValue { .. } => self.write_perform(f),
            Finding::EndTooEarly { .. }
            | Finding::WrongEndValue { .. }
            | Finding::Overlap { .. }
            | Finding::WrongBeginValue { .. }
            | Finding::Dropped { .. } => self.write_epoch(f),
        }
    }
}
