// Where the reading of a text stands.
ghost use Rattle.std.specs.Prelude.{◌+◌, ◌^◌, ◌<◌, length};

use event::event::Event;

mod calls;

// An event and the line that it stands on.
#[derive(Clone, Copy)]
pub struct Entry {
    pub line: u64,
    pub event: Event,
}

// What is left of a text, how many of its lines were read, and whether the last of them was a close.
// `closed` is a flag, since the calls and their clauses ask it by name; a type for each phase would be no plainer.
#[derive(Drop)]
pub struct Reader<'a> {
    rest: &'a [u8],
    lines: u64,
    closed: bool,
    ghost short: { lines + length rest.now < 2 ^ 63 },
}
