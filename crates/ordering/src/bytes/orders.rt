// What a table of bytes orders.
ghost use Rattle.std.specs.Prelude.{◌≡◌};
ghost use Rattle.ordering.specs.Tables.{table_orders};

use crate::bytes::ByteTable;
use crate::class::Class;
use crate::class::number::CLASSES;
use crate::rule::OrderingRule;

// The byte that leaves a pair unordered.
const UNORDERED: u8 = 0;

impl OrderingRule for ByteTable<'_> {
    ghost orders = { λ t first second. table_orders t.bytes.now first second };

    fn ordered(&self, first: Class, second: Class) -> bool {
        let place = (CLASSES * u64::from(first) + u64::from(second)) as usize;
        self.bytes.get(place).is_none_or(|byte| *byte != UNORDERED)
    }
}
