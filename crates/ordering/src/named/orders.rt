// What the named rules order.
ghost use Rattle.std.specs.Prelude.{◌≡◌};
ghost use Rattle.ordering.specs.Named.{orders_pair, named_orders};

use crate::class::Class;
use crate::named::{NamedRule, Pair};
use crate::rule::OrderingRule;

// Whether a rule orders a pair: a row for each rule, sc, tso, pso and rmo,
// with the pairs load-load, store-load, load-store and store-store.
const ORDERED: [[bool; 4]; 4] = [
    [true, true, true, true],
    [true, false, true, true],
    [true, false, true, false],
    [false, false, false, false],
];

impl NamedRule {
    // Whether the rule orders a pair of loads and stores.
    pub fn orders_pair(self, pair: Pair) -> bool
        ensures answer { result ≡ orders_pair self pair }
    {
        ORDERED[self as usize][pair as usize]
    }
}

impl OrderingRule for NamedRule {
    ghost orders = { named_orders };

    fn ordered(&self, first: Class, second: Class) -> bool {
        match (first, second) {
            (Class::Load, Class::Load) => self.orders_pair(Pair::LoadLoad),
            (Class::Store, Class::Load) => self.orders_pair(Pair::StoreLoad),
            (Class::Load, Class::Store) => self.orders_pair(Pair::LoadStore),
            (Class::Store, Class::Store) => self.orders_pair(Pair::StoreStore),
            (Class::Load, Class::Barrier(mask)) => mask.load_load || mask.load_store,
            (Class::Store, Class::Barrier(mask)) => mask.store_load || mask.store_store,
            (Class::Barrier(mask), Class::Load) => mask.load_load || mask.store_load,
            (Class::Barrier(mask), Class::Store) => mask.load_store || mask.store_store,
            (Class::Barrier(_), Class::Barrier(_)) => false,
        }
    }
}
