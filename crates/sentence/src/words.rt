// What limits, faults of a text, and some refusals and laws mean in words.
ghost use Rattle.std.specs.Prelude.{◌≡◌};
ghost use Rattle.sentence.specs.Words.{lack_text, kinds_text, begun_text, threads_text, places_text, limit_text, fault_text};

use event::event::Event;
use explain::parts::Operation;
use line::fault::Garbled;
use ordering::class::Class;
use semantics::verdict::Limit;

// What an operation without leave lacks.
pub fn lack_words(operation: Operation) -> &'static str
    ensures { result.now ≡ lack_text operation }
{
    let Some(commit) = operation.commit else {
        return "it has no leave on";
    };
    match commit.class {
        Class::Load => "it has no epoch open, and no earlier store outstanding, on",
        Class::Store => "it has no write epoch open on",
        Class::Barrier(_) => "it has no leave on",
    }
}

// What the second number of the event has to be.
pub fn kinds_words(call: Option<Event>) -> &'static str
    ensures { result.now ≡ kinds_text call }
{
    match call {
        Some(Event::Begin { .. }) => "kind of epochs: they are 0 and 1",
        _ => "class of operations: they are 0 to 17",
    }
}

// What has begun too early for the event.
pub fn begun_words(call: Option<Event>) -> &'static str
    ensures { result.now ≡ begun_text call }
{
    match call {
        Some(Event::Preset { .. }) => "the preset comes after the first begin on",
        _ => "the thread has an epoch open already on",
    }
}

// How many threads a recording has.
pub fn threads_words() -> &'static str
    ensures { result.now ≡ threads_text }
{
    "one to four threads"
}

// How places are numbered.
pub fn places_words() -> &'static str
    ensures { result.now ≡ places_text }
{
    "0 to 511"
}

// What a limit bounds.
pub fn limit_words(limit: Limit) -> &'static str
    ensures { result.now ≡ limit_text limit }
{
    match limit {
        Limit::Outstanding => "a thread has at most 64 operations outstanding",
        Limit::Commits => "a thread commits at most 1000000 operations",
        Limit::Open => "a thread has at most 32 epochs open",
        Limit::Begins => "a recording has at most 1000000 begins",
        Limit::Owed => "at most 32 notices are owed",
        Limit::Waiting => "at most 128 notices wait for their judgment",
    }
}

// What is wrong with a text.
pub fn fault_words(what: Garbled) -> &'static str
    ensures { result.now ≡ fault_text what }
{
    match what {
        Garbled::TextLength => "the text has more than 65536 bytes",
        Garbled::LineLength =>
            "the line has more than 112 bytes with its line feed, or no line feed ends it",
        Garbled::Heading => "the line differs from the heading that has to stand there",
        Garbled::FieldCount => "the line has too few fields or too many",
        Garbled::Unknown => "the first word names no rule on line 2, or no event on a later line",
        Garbled::Number =>
            "a field that has to be a number is none, or is not written in the one way it can be",
        Garbled::Unused => "a number that the event does not take is not 0",
        Garbled::End => "the text ends where a line is due, or goes on after its close",
    }
}
