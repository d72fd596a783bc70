// How many threads a watch has.
ghost use Rattle.std.specs.Prelude.{◌≡◌, ◌<◌, ◌≤◌, Some, None, MatchResult};
ghost use Rattle.semantics.specs.Lists.{first_of};
ghost use Rattle.semantics.specs.Refusals.{making_checks};

use semantics::verdict::Refusal;
use thread::limits::MOST_THREADS;

// A number of threads that a watch can have: from 1 to 4.
#[derive(Clone, Copy)]
pub struct Threads {
    pub(crate) count: usize,
    ghost some: { 0 < count },
    ghost fits: { count ≤ 4 },
}

// Refusal 1, unless the number lies from 1 to 4.
impl TryFrom<u64> for Threads {
    type Error = Refusal;

    ghost try_from_gives = { λ number r. MatchResult r (λ t. (first_of (making_checks number) ≡ None) × (t.count ≡ number)) (λ f. first_of (making_checks number) ≡ Some f) };

    fn try_from(number: u64) -> Result<Threads, Refusal> {
        if number == 0 || number > MOST_THREADS as u64 {
            return Err(Refusal::ThreadCount);
        }
        Ok(Threads {
            count: number as usize,
        })
    }
}
