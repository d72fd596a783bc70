// The events that are looked for in a text.

// Which events are meant. An enum and no closure, since the definition of an explanation says by it what is looked up.
#[derive(Clone, Copy)]
pub enum Wanted {
    // The one on a line.
    OnLine(u64),
    // The commits of a thread.
    CommitBy(u64),
    // The begins of a thread on a place, on the lines before one.
    BeginOf {
        thread: u64,
        place: u64,
        before: u64,
    },
    // The ends.
    End,
}
