// A whole text, read line by line up to its first fault.
ghost use Rattle.std.specs.Prelude.{◌≡◌, ◌+◌, Ok, Err, MatchResult};
ghost use Rattle.fields.specs.Splits.{split};
ghost use Rattle.text.specs.Texts.{closes, closed, heading, reading};
ghost use Rattle.text.specs.Readers.{start, set_up, before_names, names_read, headed, left, next, Fresh, MovedTo, AfterSetup, AfterNames, AfterNext, Shrinks};
ghost use Rattle.text.specs.Wholes.{TextBack, OneText};

use crate::fault::Fault;
use crate::limits::MAX_TEXT;
use crate::lines::{next_as, pass_heading};
use crate::reader::{Entry, Reader};
use event::event::Event;
use line::fault::Garbled;
use setup::setup::Setup;

fn is_close(event: Event) -> bool
    ensures { result ≡ closes event }
{
    matches!(event, Event::Close)
}

impl<'a> Reader<'a> {
    // A text of which nothing was read.
    #[tactic(auto, using(crate::proofs::WholeText::text_back, crate::proofs::WholeText::one_text))]
    pub fn new(text: &'a [u8]) -> Reader<'a>
        ensures value { start result ≡ reading text.now }
        ensures state { Fresh text.now result }
        ensures back { TextBack }
        ensures same { OneText }
    {
        Reader {
            rest: text,
            lines: 0,
            closed: false,
        }
    }

    // Reads the first two lines, and gives the rule and the number of threads.
    pub fn setup(&mut self) -> Result<Setup, Fault>
        ensures rest { start self.old ≡ set_up self.new result }
        ensures state { AfterSetup self.old self.new result }
    {
        if self.rest.len() > MAX_TEXT {
            return Err(Fault {
                line: 0,
                what: Garbled::TextLength,
            });
        }
        self.heading(b"rule threads")?;
        let (setup, rest) = next_as::<Setup>(self.rest).map_err(|what| Fault {
            line: self.lines + 1,
            what,
        })?;
        self.rest = rest;
        self.lines += 1;
        Ok(setup)
    }

    // Reads the third line, after which the events stand.
    pub fn names(&mut self) -> Result<(), Fault>
        ensures answer { result ≡ names_read self.old }
        ensures rest { before_names self.old ≡ headed self.new result }
        ensures state { AfterNames self.old self.new result }
    {
        self.heading(b"event thread what place value time")?;
        self.closed = false;
        Ok(())
    }

    // The next event with its line, or none after a close with which the text ends.
    pub fn next(&mut self) -> Result<Option<Entry>, Fault>
        ensures rest { left self.old ≡ next self.new result }
        ensures state { AfterNext self.old self.new result }
        ensures bound { Shrinks self.old self.new result }
    {
        if self.closed {
            return self.end();
        }
        let line = self.lines + 1;
        let (event, rest) = next_as::<Event>(self.rest).map_err(|what| Fault { line, what })?;
        self.rest = rest;
        self.lines = line;
        self.closed = is_close(event);
        Ok(Some(Entry { line, event }))
    }

    // After a close: none where the text ends, else a fault.
    #[tactic(auto, using(crate::proofs::Passing::over_none, crate::proofs::Passing::over_some))]
    fn end(&self) -> Result<Option<Entry>, Fault>
        ensures { closed self.now.lines (split 10 self.now.rest.now) ≡ next self.now result }
    {
        if self.rest.is_empty() {
            Ok(None)
        } else {
            Err(Fault {
                line: self.lines + 1,
                what: Garbled::End,
            })
        }
    }

    // Reads a line that has to be as expected.
    // Here and above a fault is written out: of one that a method makes the check does not find what it tells.
    fn heading(&mut self, expected: &[u8]) -> Result<(), Fault>
        ensures { MatchResult result (λ _. (heading expected.now (split 10 self.old.rest.now) ≡ Ok tt) × MovedTo self.old.closed self.old self.new) (λ f. (heading expected.now (split 10 self.old.rest.now) ≡ Err f.what) × (f.line ≡ self.old.lines + 1) × (self.new ≡ self.old)) }
    {
        self.rest = pass_heading(self.rest, expected).map_err(|what| Fault {
            line: self.lines + 1,
            what,
        })?;
        self.lines += 1;
        Ok(())
    }
}
