// Judging what waits.
ghost use Rattle.std.specs.Prelude.{◌≡◌, ◌<◌, length, List, ◌∷◌, Bool};
ghost use Rattle.semantics.specs.declared.row.Ended.{Ended};
ghost use Rattle.semantics.specs.Judging.{judged_one};
ghost use Rattle.semantics.specs.Puts.{put_queues};
ghost use Rattle.semantics.specs.State.{home_of};
ghost use Rattle.table.specs.Judgings.{Judges};

use super::Table;
use ended::home::{judged_home, keeps_home};
use ended::row::EndedRow;
use semantics::row::Home;
use semantics::verdict::Conviction;
use thread::limits::PLACES;

impl Table {
    // The home of a place, and of one that there is not, an unused one.
    fn home(&self, place: u64) -> Home
        ensures { result ≡ home_of self.now place }
    {
        self.homes.get(place as usize).copied().unwrap_or_default()
    }

    // The first that waits is judged.
    fn accept(&mut self)
        requires { 0 < length self.old.waiting }
        ensures { (e : Ended) → (es : List Ended) → self.old.waiting ≡ e ∷ es → self.new ≡ put_queues (judged_one self.old e) self.old.owed es }
    {
        let row = self.waiting.take();
        self.judged += 1;
        // By index: of what is written through get_mut the check does not learn where it lies.
        if row.place < PLACES as u64 {
            self.homes[row.place as usize] = judged_home(self.homes[row.place as usize], row);
        }
    }

    // Judges what waits, in its order, as long as it is due.
    // No index is counted: the waiting are taken from while the first is due, up to the first fault.
    pub fn judge<F: Fn(&EndedRow) -> bool>(&mut self, due: F) -> Result<u64, Conviction>
        requires { F.IsAlwaysCallable due }
        ensures { (p : Ended → Bool) → ((e : _) (r : Bool) → F.post due e r → r ≡ p e.now) → Judges p self.old result self.new }
    {
        let mut done = 0;
        while let Some(row) = self.waiting.first() {
            if !due(&row) {
                return Ok(done);
            }
            keeps_home(self.home(row.place), row)?;
            self.accept();
            done += 1;
        }
        Ok(done)
    }
}
