// A row of four fields, one of them a flag, so that the order of flags is tried. Its order is that of the fields in turn.
ghost use Rattle.queue_tests.specs.Exact.{alarm_exact};

use queue::TotalOrder;

#[derive(Clone, Copy, PartialEq, Eq, PartialOrd, Ord)]
pub struct Alarm {
    pub due: u64,
    pub urgent: bool,
    pub line: u8,
    pub source: u32,
}

impl TotalOrder for Alarm {
    ghost exact = { alarm_exact };
}
