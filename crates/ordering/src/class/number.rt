// The numbers by which classes are written.
ghost use Rattle.std.specs.Prelude.{◌≡◌, ◌<◌, ok_or};
ghost use Rattle.ordering.specs.Classes.{mask_of, mask_number, known_class, number_of};

use crate::class::{Class, Mask, UnknownClass};

// How many classes there are.
pub const CLASSES: u64 = 18;
// The number of a load.
const LOAD: u64 = 0;
// The number of a store.
const STORE: u64 = 1;
// The number of the barrier whose mask is empty.
const BARRIER: u64 = 2;
// What the pair of two loads adds to a mask's number.
const LOAD_LOAD: u64 = 1;
// What the pair of a store and a later load adds.
const STORE_LOAD: u64 = 2;
// What the pair of a load and a later store adds.
const LOAD_STORE: u64 = 4;
// What the pair of two stores adds.
const STORE_STORE: u64 = 8;

// The mask of a number.
impl From<u64> for Mask {
    ghost from_gives = { λ number mask. mask ≡ mask_of number };

    fn from(number: u64) -> Mask {
        Mask {
            load_load: number / LOAD_LOAD % 2 == 1,
            store_load: number / STORE_LOAD % 2 == 1,
            load_store: number / LOAD_STORE % 2 == 1,
            store_store: number / STORE_STORE % 2 == 1,
        }
    }
}

// The number of a mask: the sum of what its pairs add.
impl From<Mask> for u64 {
    ghost from_gives = { λ mask number. (number ≡ mask_number mask) × (number < 16) };

    fn from(mask: Mask) -> u64 {
        u64::from(mask.load_load) * LOAD_LOAD
            + u64::from(mask.store_load) * STORE_LOAD
            + u64::from(mask.load_store) * LOAD_STORE
            + u64::from(mask.store_store) * STORE_STORE
    }
}

// The class of a number up to 17.
impl TryFrom<u64> for Class {
    type Error = UnknownClass;

    ghost try_from_gives = { λ number class. class ≡ ok_or (known_class number) (record {}) };

    fn try_from(number: u64) -> Result<Class, UnknownClass> {
        match number {
            LOAD => Ok(Class::Load),
            STORE => Ok(Class::Store),
            BARRIER..CLASSES => Ok(Class::Barrier(Mask::from(number - BARRIER))),
            _ => Err(UnknownClass),
        }
    }
}

// The number of a class.
impl From<Class> for u64 {
    ghost from_gives = { λ class number. (number ≡ number_of class) × (number < 18) };

    fn from(class: Class) -> u64 {
        match class {
            Class::Load => LOAD,
            Class::Store => STORE,
            Class::Barrier(mask) => BARRIER + u64::from(mask),
        }
    }
}
