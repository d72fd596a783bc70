// The words that name events.
ghost use Rattle.std.specs.Prelude.{◌≡◌, ◌≤◌, length};
ghost use Rattle.std.specs.Option.{ok_or};
ghost use Rattle.event.specs.Kinds.{word_of, kind_named};
ghost use Rattle.fields.specs.declared.parse.UnknownWord.{UnknownWord};

use crate::event::EventKind;
use fields::parse::{UnknownWord, parse_field};
use std::str::FromStr;

impl EventKind {
    // The word for this kind of event: text and no Display, since a line is put together in a string of fixed room.
    pub fn word(self) -> &'static str
        ensures value { result.now ≡ word_of self }
        ensures bound { length result.now ≤ 7 }
    {
        match self {
            EventKind::Preset => "preset",
            EventKind::Commit => "commit",
            EventKind::Perform => "perform",
            EventKind::Advance => "advance",
            EventKind::Begin => "begin",
            EventKind::End => "end",
            EventKind::Settle => "settle",
            EventKind::Close => "close",
        }
    }

    // The kind of event that a word of bytes names, if it names one: a name for the generic parse, no plainer as a TryFrom with an error that is dropped.
    pub fn from_word(word: &[u8]) -> Option<EventKind>
        ensures { result ≡ kind_named word.now }
    {
        parse_field(word)
    }
}

impl FromStr for EventKind {
    type Err = UnknownWord;

    ghost from_str_gives = { λ word r. r ≡ ok_or (kind_named word) (record {}) };

    fn from_str(word: &str) -> Result<EventKind, UnknownWord> {
        match word {
            "preset" => Ok(EventKind::Preset),
            "commit" => Ok(EventKind::Commit),
            "perform" => Ok(EventKind::Perform),
            "advance" => Ok(EventKind::Advance),
            "begin" => Ok(EventKind::Begin),
            "end" => Ok(EventKind::End),
            "settle" => Ok(EventKind::Settle),
            "close" => Ok(EventKind::Close),
            _ => Err(UnknownWord),
        }
    }
}
