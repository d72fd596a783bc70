// What a perform answers, and which epoch it uses.

// Where the value of what performed came from.
#[derive(Clone, Copy, PartialEq, Eq, Debug)]
pub enum Performed {
    // It receives no value.
    Done,
    // From an earlier outstanding store of its thread.
    Forwarded,
    // From the copy of its thread's open epoch.
    Copied,
}

// The answer, and the row of the open epoch whose copy is read or written.
#[derive(Clone, Copy)]
pub struct Served {
    pub answer: Performed,
    pub uses: Option<usize>,
}
