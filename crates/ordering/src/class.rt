// The classes that an ordering rule tells apart.
pub mod number;

// The pairs of operations that a barrier keeps apart: the first stands before it, the second after it.
// Four flags, since each pair is chosen apart from the others.
#[derive(Clone, Copy, PartialEq, Eq, Debug)]
pub struct Mask {
    pub load_load: bool,
    pub store_load: bool,
    pub load_store: bool,
    pub store_store: bool,
}

// A load, a store, or a barrier by its mask: 18 classes in all.
#[derive(Clone, Copy, PartialEq, Eq, Debug)]
pub enum Class {
    Load,
    Store,
    Barrier(Mask),
}

// No class has the number.
#[derive(Clone, Copy, PartialEq, Eq, Debug)]
pub struct UnknownClass;
