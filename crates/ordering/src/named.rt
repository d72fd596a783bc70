// The ordering rules that go by a name.
pub mod name;
pub mod orders;

// The four named rules, the strictest first.
#[derive(Clone, Copy, PartialEq, Eq, Debug)]
pub enum NamedRule {
    Sc,
    Tso,
    Pso,
    Rmo,
}

// No rule has the name. An error of its own, since this crate builds on no other.
#[derive(Clone, Copy, PartialEq, Eq, Debug)]
pub struct UnknownName;

// The pairs of a load or store and a later load or store, by the two kinds.
#[derive(Clone, Copy, PartialEq, Eq, Debug)]
pub enum Pair {
    LoadLoad,
    StoreLoad,
    LoadStore,
    StoreStore,
}
