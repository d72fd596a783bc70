// The numbers by which a begin names kinds of epochs.
ghost use Rattle.std.specs.Prelude.{◌≡◌, ok_or};
ghost use Rattle.semantics.specs.Kinds.{known_kind, kind_writes};
ghost use Rattle.semantics.specs.declared.verdict.Refusal.TheVariants as refusal;

use super::EpochKind;
use crate::verdict::Refusal;

// The number of the kind that reads.
const READ: u64 = 0;
// The number of the kind that reads and writes.
const WRITE: u64 = 1;

// The kind of a number, or the refusal of a begin that names no kind.
impl TryFrom<u64> for EpochKind {
    type Error = Refusal;

    ghost try_from_gives = { λ number kind. kind ≡ ok_or (known_kind number) refusal.UnknownClass };

    fn try_from(number: u64) -> Result<EpochKind, Refusal> {
        match number {
            READ => Ok(EpochKind::Read),
            WRITE => Ok(EpochKind::Write),
            _ => Err(Refusal::UnknownClass),
        }
    }
}

impl EpochKind {
    // Its thread may write the place. Both kinds are named, so that none is passed over when there is one more.
    pub fn writes(self) -> bool
        ensures { result ≡ kind_writes self }
    {
        match self {
            EpochKind::Read => false,
            EpochKind::Write => true,
        }
    }
}
