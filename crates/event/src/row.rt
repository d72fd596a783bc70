// An event as its kind and its row of numbers.
ghost use Rattle.std.specs.Prelude.{◌≡◌};
ghost use Rattle.event.specs.Events.{kind_of, row_of, numbers, taking, event_of};

use crate::event::{Event, EventKind, Row};

impl Row {
    // A row by its numbers, in the order of the line.
    fn new(thread: u64, what: u64, place: u64, value: u64, time: u64) -> Row
        ensures { result ≡ numbers thread what place value time }
    {
        Row {
            thread,
            what,
            place,
            value,
            time,
        }
    }
}

// The numbers of an event's line, 0 where the event takes none.
impl From<Event> for Row {
    ghost from_gives = { λ event row. row ≡ row_of event };

    fn from(event: Event) -> Row {
        match event {
            Event::Preset { place, value } => Row::new(0, 0, place, value, 0),
            Event::Commit {
                thread,
                class,
                place,
                value,
            } => Row::new(thread, class, place, value, 0),
            Event::Perform {
                thread,
                number,
                time,
            } => Row::new(thread, number, 0, 0, time),
            Event::Advance { thread, time } => Row::new(thread, 0, 0, 0, time),
            Event::Begin {
                thread,
                kind,
                place,
                value,
                time,
            } => Row::new(thread, kind, place, value, time),
            Event::End {
                thread,
                place,
                value,
                time,
            } => Row::new(thread, 0, place, value, time),
            Event::Settle | Event::Close => Row::new(0, 0, 0, 0, 0),
        }
    }
}

impl Event {
    // The kind of the event.
    pub fn kind(self) -> EventKind
        ensures { result ≡ kind_of self }
    {
        match self {
            Event::Preset { .. } => EventKind::Preset,
            Event::Commit { .. } => EventKind::Commit,
            Event::Perform { .. } => EventKind::Perform,
            Event::Advance { .. } => EventKind::Advance,
            Event::Begin { .. } => EventKind::Begin,
            Event::End { .. } => EventKind::End,
            Event::Settle => EventKind::Settle,
            Event::Close => EventKind::Close,
        }
    }

    // The event of a kind, with those of the numbers that it takes.
    fn taking(kind: EventKind, row: Row) -> Event
        ensures { result ≡ taking kind row }
    {
        let Row {
            thread,
            what,
            place,
            value,
            time,
        } = row;
        match kind {
            EventKind::Preset => Event::Preset { place, value },
            EventKind::Commit => Event::Commit {
                thread,
                class: what,
                place,
                value,
            },
            EventKind::Perform => Event::Perform {
                thread,
                number: what,
                time,
            },
            EventKind::Advance => Event::Advance { thread, time },
            EventKind::Begin => Event::Begin {
                thread,
                kind: what,
                place,
                value,
                time,
            },
            EventKind::End => Event::End {
                thread,
                place,
                value,
                time,
            },
            EventKind::Settle => Event::Settle,
            EventKind::Close => Event::Close,
        }
    }

    // The event of a kind and a row; none where a number that the event does not take is not 0.
    // A `TryFrom` of the pair would be no plainer: it has no name for what it takes, and one error alone.
    pub fn from_row(kind: EventKind, row: Row) -> Option<Event>
        ensures { result ≡ event_of kind row }
    {
        let event = Event::taking(kind, row);
        if Row::from(event) == row {
            Some(event)
        } else {
            None
        }
    }
}
