// What an ordering rule is: a set of pairs of classes, and the one question that it answers.
ghost use Rattle.std.specs.Prelude.{◌≡◌, Bool};
ghost use Rattle.ordering.specs.declared.class.Class.{Class};

use crate::class::Class;

pub trait OrderingRule {
    // The rule's set: whether an operation of the first class has to perform before a later one of the second.
    ghost orders: { Self → Class → Class → Bool };

    // Whether the pair is in the rule's set.
    fn ordered(&self, first: Class, second: Class) -> bool
        ensures answer { result ≡ orders self.now first second };
}
