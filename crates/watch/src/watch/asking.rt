// What can be asked of a watch. Nothing changes it.
ghost use Rattle.std.specs.Prelude.{◌≡◌};
ghost use Rattle.semantics.specs.Asking.{counts};
ghost use Rattle.watch.specs.Took.{Spares};
ghost use Rattle.watch.specs.Promises.{Counted, Concluded};

use super::Watch;
use ordering::rule::OrderingRule;
use semantics::counts::Counts;
use semantics::verdict::{Refusal, Verdict};

impl<R: OrderingRule> Watch<R> {
    // What the watch has concluded.
    #[tactic(auto, using(crate::proofs::Promising::concluded))]
    pub fn verdict(&self) -> Verdict
        ensures answer { result ≡ self.now.state.verdict }
        ensures promises { Concluded R.OrderingRule.orders self.now result }
    {
        self.table.verdict()
    }

    // The five accounts of epochs.
    #[tactic(auto, using(crate::proofs::Promising::counted))]
    pub fn counts(&self) -> Counts
        ensures answer { result ≡ counts self.now.state }
        ensures promises { Counted R.OrderingRule.orders self.now result }
    {
        self.table.counts()
    }

    // How many operations a thread may commit before it has to perform one; refusal 4.
    #[tactic(auto, using(crate::proofs::Taking::within_leeway))]
    pub fn spare(&self, thread: u64) -> Result<u64, Refusal>
        ensures answer { Spares self.now.state thread result }
    {
        self.table.spare(thread)
    }
}
