// How reading or writing a trace can fail.

// What is wrong with a text, in the order in which it is looked for.
#[derive(Clone, Copy, PartialEq, Eq, Debug)]
pub enum Garbled {
    // The text is too long.
    TextLength = 41,
    // A line is too long, or has no line feed.
    LineLength = 42,
    // A line that is said in advance differs.
    Heading = 43,
    // A line has too few or too many fields.
    FieldCount = 44,
    // No event and no rule has that name.
    Unknown = 45,
    // A field is no number of 64 bits.
    Number = 46,
    // A number stands where the event takes none.
    Unused = 47,
    // The text ends before its close, or goes on after it.
    End = 48,
}

// A line is longer than the space that was given for it.
#[derive(Clone, Copy, PartialEq, Eq, Debug)]
pub struct TooLong;
