// The numbers of refusals and laws, and of the limit in a refusal.
ghost use Rattle.std.specs.Prelude.{◌≡◌};
ghost use Rattle.semantics.specs.Numbers.{refusal_number, limit_in, law_number};

use super::{Law, Refusal};

impl Refusal {
    // A match, since an enum whose variant holds a limit has no discriminants to cast.
    pub fn number(self) -> u64
        ensures { result ≡ refusal_number self }
    {
        match self {
            Refusal::ThreadCount => 1,
            Refusal::Convicted => 2,
            Refusal::Closed => 3,
            Refusal::UnknownThread => 4,
            Refusal::UnknownClass => 5,
            Refusal::UnknownPlace => 6,
            Refusal::PastTime => 7,
            Refusal::NotOutstanding => 8,
            Refusal::AlreadyBegun => 9,
            Refusal::NotOpen => 10,
            Refusal::NotOwed => 11,
            Refusal::Over(_) => 12,
            Refusal::Unfinished => 13,
            Refusal::NoSpace => 14,
        }
    }

    // The number of the limit that a call would pass, and 0 for any other refusal: a verdict's line has a number for each.
    pub fn limit(self) -> u64
        ensures { result ≡ limit_in self }
    {
        match self {
            Refusal::Over(limit) => limit.number(),
            _ => 0,
        }
    }
}

impl Law {
    // The number of the law.
    pub fn number(self) -> u64
        ensures { result ≡ law_number self }
    {
        self as u64
    }
}
