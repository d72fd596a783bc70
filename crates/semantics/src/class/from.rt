// The class of an operation from the class by which a rule orders it.
ghost use Rattle.std.specs.Prelude.{◌≡◌};
ghost use Rattle.semantics.specs.Classes.{of_face};
ghost use Rattle.semantics.specs.declared.verdict.Refusal.TheVariants as refusal;

use super::OpClass;
use crate::verdict::Refusal;
use ordering::class::{Class, UnknownClass};

// The class of an operation that a rule sees so.
impl From<Class> for OpClass {
    ghost from_gives = { λ class seen. seen ≡ of_face class };

    fn from(class: Class) -> OpClass {
        match class {
            Class::Load => OpClass::Load,
            Class::Store => OpClass::Store,
            Class::Barrier(mask) => OpClass::Barrier(mask),
        }
    }
}

// A call that names no class is refused. Written out, since the clauses of a commit name the refusal that `?` makes.
impl From<UnknownClass> for Refusal {
    ghost from_gives = { λ _ why. why ≡ refusal.UnknownClass };

    fn from(_: UnknownClass) -> Refusal {
        Refusal::UnknownClass
    }
}
