// Why a call was not taken.
ghost use Rattle.std.specs.Prelude.{◌≡◌};
ghost use Rattle.table.specs.declared.fault.Fault.TheVariants.{Refused};

use semantics::verdict::{Conviction, Refusal};

#[derive(Clone, Copy, PartialEq, Eq, Debug)]
pub enum Fault {
    Refused(Refusal),
    Convicted(Conviction),
}

// Written out, since the clauses of the calls name the fault that `?` makes.
impl From<Refusal> for Fault {
    ghost from_gives = { λ x r. r ≡ Refused x };

    fn from(refusal: Refusal) -> Fault {
        Fault::Refused(refusal)
    }
}
