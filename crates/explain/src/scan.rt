// Events and the setup, looked up in a text.
ghost use Rattle.std.specs.Prelude.{◌≡◌, [], MatchOption};
ghost use Rattle.std.specs.Iterator.{YieldsFirst, item_count};
ghost use Rattle.text.specs.Readers.{left};
ghost use Rattle.explain.specs.Scans.{reading_of, meant, entries, nth, latest, setup_in};

use crate::wanted::Wanted;
use event::event::Event;
use setup::setup::Setup;
use text::reader::{Entry, Reader};

impl Wanted {
    // Whether the event is among the wanted.
    fn means(self, entry: Entry) -> bool
        ensures { result ≡ meant self entry.line entry.event }
    {
        match (self, entry.event) {
            (Wanted::OnLine(line), _) => entry.line == line,
            (Wanted::CommitBy(by), Event::Commit { thread, .. }) => thread == by,
            (
                Wanted::BeginOf {
                    thread: by,
                    place: on,
                    before,
                },
                Event::Begin { thread, place, .. },
            ) => entry.line < before && thread == by && place == on,
            (Wanted::End, Event::End { .. }) => true,
            _ => false,
        }
    }
}

// The events of a text, up to its first fault.
#[derive(Drop)]
struct Events<'a>(Reader<'a>);

impl<'a> Iterator for Events<'a> {
    type Item = Entry;

    ghost next_gives = { YieldsFirst (λ s. entries (left s.0)) };

    ghost remaining = { item_count (λ s. entries (left s.0)) };

    fn next(&mut self) -> Option<Entry> {
        self.0.next().ok()?
    }
}

// A recording by its text.
#[derive(Clone, Copy)]
pub struct Recording<'a> {
    pub text: &'a [u8],
}

impl<'a> Recording<'a> {
    // The events; none where the text has a fault before them.
    fn events(&self) -> Option<Events<'a>>
        ensures { MatchOption result (entries (reading_of self.now) ≡ []) (λ s. entries (reading_of self.now) ≡ entries (left s.0)) }
    {
        let mut reader = Reader::new(self.text);
        let _ = reader.setup().ok()?;
        reader.names().ok()?;
        Some(Events(reader))
    }

    // The wanted event number `number`, counted from 0.
    pub fn nth(&self, wanted: Wanted, number: u64) -> Option<Entry>
        ensures { result ≡ nth wanted number (reading_of self.now) }
    {
        self.events()?
            .filter(|entry| wanted.means(*entry))
            .nth(number as usize)
    }

    // The last wanted event.
    pub fn latest(&self, wanted: Wanted) -> Option<Entry>
        ensures { result ≡ latest wanted (reading_of self.now) }
    {
        self.events()?.filter(|entry| wanted.means(*entry)).last()
    }

    // What line 2 sets.
    pub fn setup(&self) -> Option<Setup>
        ensures { result ≡ setup_in (reading_of self.now) }
    {
        Reader::new(self.text).setup().ok()
    }
}
