// A new table.
ghost use Rattle.std.specs.Prelude.{◌≡◌, ◌<◌, ◌≤◌};
ghost use Rattle.semantics.specs.State.{made};

use super::Table;
use arrayvec::ArrayVec;
use ended::waiting::Waiting;
use semantics::row::Home;
use semantics::verdict::Verdict;
use thread::limits::{MOST_THREADS, PLACES};
use thread::row::ThreadRow;

impl Table {
    // The table of a watch that has met no call.
    pub fn new(count: usize) -> Table
        requires { (0 < count) × (count ≤ 4) }
        ensures { result ≡ made count }
    {
        let mut threads = ArrayVec::from([ThreadRow::new(); MOST_THREADS]);
        threads.truncate(count);
        Table {
            threads,
            homes: [Home::default(); PLACES],
            owed: ArrayVec::new(),
            waiting: Waiting::new(),
            begins: 0,
            ends: 0,
            judged: 0,
            dropped: 0,
            verdict: Verdict::Running,
        }
    }
}
