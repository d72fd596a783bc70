// What an operation of a class does, and how a rule sees it.
ghost use Rattle.std.specs.Prelude.{◌≡◌, cond, Some, None};
ghost use Rattle.semantics.specs.Classes.{reads, writes, touches, face, op_class, last_class};

use super::OpClass;
use ordering::class::Class;

// Each answer names every class, so that none is passed over when there is one more.
impl OpClass {
    // It receives a value.
    pub fn reads(self) -> bool
        ensures { result ≡ reads self }
    {
        match self {
            OpClass::Load => true,
            OpClass::Store | OpClass::Barrier(_) => false,
        }
    }

    // It puts a value into its place.
    pub fn writes(self) -> bool
        ensures { result ≡ writes self }
    {
        match self {
            OpClass::Store => true,
            OpClass::Load | OpClass::Barrier(_) => false,
        }
    }

    // It has a place.
    pub fn touches(self) -> bool
        ensures { result ≡ touches self }
    {
        self.reads() || self.writes()
    }

    // The class by which a rule orders it. No From: an operation may come to show a rule more classes than one.
    pub fn face(self) -> Class
        ensures { result ≡ face self }
    {
        match self {
            OpClass::Load => Class::Load,
            OpClass::Store => Class::Store,
            OpClass::Barrier(mask) => Class::Barrier(mask),
        }
    }
}
