// The numbers that bound a watch.

// Threads of a watch.
pub const MOST_THREADS: usize = 4;
// Places, which go from 0 up.
pub const PLACES: usize = 512;
// Outstanding operations of a thread.
pub const MOST_OUTSTANDING: usize = 64;
// Commits of a thread.
pub const MOST_COMMITS: u64 = 1_000_000;
// Open epochs of a thread.
pub const MOST_OPEN: usize = 32;
// Begins of a watch.
pub const MOST_BEGINS: u64 = 1_000_000;
// Owed notices of a watch.
pub const MOST_OWED: usize = 32;
// Waiting notices of a watch.
pub const MOST_WAITING: usize = 128;
