// A new watch.
ghost use Rattle.std.specs.Prelude.{◌≡◌, []};
ghost use Rattle.semantics.specs.State.{made};
ghost use Rattle.semantics.specs.Trace.{Follows};

use super::Watch;
use crate::threads::Threads;
use ordering::rule::OrderingRule;
use table::table::Table;

impl<R: OrderingRule> Watch<R> {
    // A watch that has met no call. It can't be refused: the number of threads is checked before.
    pub fn new(rule: R, threads: Threads) -> Watch<R>
        ensures state { result.state ≡ made threads.count }
        ensures same { result.rule ≡ rule }
        ensures history { Follows (R.OrderingRule.orders rule) threads.count [] result.state }
    {
        Watch {
            rule,
            table: Table::new(threads.count),
        }
    }
}
