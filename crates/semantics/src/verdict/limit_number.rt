// The number of a limit, apart from those of refusals and laws: an edit of its body quotes a text that stands once in its file.
ghost use Rattle.std.specs.Prelude.{◌≡◌};
ghost use Rattle.semantics.specs.Numbers.{limit_number};

use super::Limit;

impl Limit {
    // The number of the limit. A method, as of a refusal and a law.
    pub fn number(self) -> u64
        ensures { result ≡ limit_number self }
    {
        self as u64
    }
}
