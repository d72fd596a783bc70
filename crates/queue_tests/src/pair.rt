// A row of two numbers. Its order is that of the numbers in turn.
ghost use Rattle.queue_tests.specs.Exact.{pair_exact};

use queue::TotalOrder;

#[derive(Clone, Copy, PartialEq, Eq, PartialOrd, Ord)]
pub struct Pair(pub u64, pub u64);

impl TotalOrder for Pair {
    ghost exact = { pair_exact };
}
