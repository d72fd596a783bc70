// The sizes of the five accounts of epochs.

#[derive(Clone, Copy, PartialEq, Eq, Debug)]
pub struct Counts {
    pub open: u64,
    pub owed: u64,
    pub waiting: u64,
    pub judged: u64,
    pub dropped: u64,
}
