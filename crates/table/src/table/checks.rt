// The refusals that calls share, and what a conviction leaves.
ghost use Rattle.std.specs.Prelude.{◌≡◌, List, ◌++◌, Some, MatchResult};
ghost use Rattle.semantics.specs.declared.verdict.Verdict.TheVariants.{Running};
ghost use Rattle.semantics.specs.Lists.{first_of};
ghost use Rattle.semantics.specs.Puts.{convict};
ghost use Rattle.semantics.specs.Refusals.{Test, stopped};
ghost use Rattle.table.specs.declared.fault.Fault.TheVariants.{Convicted};
ghost use Rattle.table.specs.Checks.{Known, Unknown};

use super::Table;
use crate::fault::Fault;
use semantics::verdict::{Conviction, Refusal, Verdict};

impl Table {
    // Refusals 2 and 3.
    pub fn running(&self) -> Result<(), Refusal>
        ensures { MatchResult result (λ _. self.now.verdict ≡ Running) (λ f. (ts : List Test) → first_of (stopped self.now ++ ts) ≡ Some f) }
    {
        match self.verdict {
            Verdict::Running => Ok(()),
            Verdict::Clean => Err(Refusal::Closed),
            Verdict::Guilty(_) => Err(Refusal::Convicted),
        }
    }

    // The row of a thread; refusals 2, 3 and 4 go first in the calls of a thread.
    pub fn thread(&self, thread: u64) -> Result<usize, Refusal>
        ensures { MatchResult result (λ row. Known self.now thread row) (λ f. Unknown self.now thread f) }
    {
        self.running()?;
        if self.threads.len() as u64 <= thread {
            return Err(Refusal::UnknownThread);
        }
        Ok(thread as usize)
    }

    // The verdict is the conviction.
    pub fn convict(&mut self, conviction: Conviction) -> Fault
        ensures answer { result ≡ Convicted conviction }
        ensures state { self.new ≡ convict self.old conviction }
    {
        self.verdict = Verdict::Guilty(conviction);
        Fault::Convicted(conviction)
    }
}
