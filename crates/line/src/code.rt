// The numbers of what can go wrong with a text.
ghost use Rattle.std.specs.Prelude.{◌≡◌};
ghost use Rattle.line.specs.Codes.{code_of, refusal_of};

use crate::fault::{Garbled, TooLong};

impl Garbled {
    // The number of the fault.
    pub fn code(self) -> u64
        ensures { result ≡ code_of self }
    {
        self as u64
    }
}

impl TooLong {
    // The number of the refusal, as a watch has it. The text layer does not know the watch.
    pub fn code(self) -> u64
        ensures { result ≡ refusal_of self }
    {
        14
    }
}
