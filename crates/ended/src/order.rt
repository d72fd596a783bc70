// The order of judging: that of the plain row, by begin, then by number. A derived one would ask the span's end before the number.
ghost use Rattle.std.specs.Prelude.{◌≡◌, Decides, IsSomeAnd, refl};
ghost use Rattle.std.specs.Cmp.{partial_equiv_from_equiv, eq_by_cmp_equiv, partial_order_from_total};
ghost use Rattle.std.specs.Ordering.{as_partial_cmp, eq_by_cmp, is_le};
ghost use Rattle.semantics.specs.Judging.{ended_le};
ghost use Rattle.semantics.specs.contracts.row.EndedOrd.TheImpl.Laws as order;
ghost use Rattle.ended.specs.Order.{ended_cmp};
ghost use Rattle.ended.specs.Exact.{ended_exact};

use crate::row::EndedRow;
use queue::TotalOrder;
use std::cmp::Ordering;

impl PartialEq for EndedRow {
    ghost eq = { eq_by_cmp ended_cmp };

    ghost laws = { partial_equiv_from_equiv (eq_by_cmp_equiv order.total-law) };

    fn eq(&self, other: &EndedRow) -> bool
        ensures computes { result ≡ eq_by_cmp ended_cmp self.now other.now }
        ensures decides { Decides result (self.now ≡ other.now) }
    {
        self.plain() == other.plain()
    }
}

impl Eq for EndedRow {
    ghost laws = { eq_by_cmp_equiv order.total-law };
}

impl PartialOrd for EndedRow {
    ghost partial_cmp = { as_partial_cmp ended_cmp };

    ghost laws = { partial_order_from_total order.total-law };

    #[tactic(auto, using(crate::proofs::Orders::ended_says))]
    fn partial_cmp(&self, other: &EndedRow) -> Option<Ordering>
        ensures computes { result ≡ as_partial_cmp ended_cmp self.now other.now }
        ensures says { IsSomeAnd result (λ o. is_le o ≡ ended_le self.now other.now) }
    {
        Some(self.cmp(other))
    }
}

impl Ord for EndedRow {
    ghost cmp = { ended_cmp };

    ghost total = { order.total-law };

    ghost matches_partial_cmp = { λ _ _. refl };

    ghost matches_eq = { λ _ _. refl };

    #[tactic(auto, using(crate::proofs::Orders::ended_says))]
    fn cmp(&self, other: &EndedRow) -> Ordering
        ensures computes { result ≡ ended_cmp self.now other.now }
        ensures says { is_le result ≡ ended_le self.now other.now }
    {
        self.plain().cmp(&other.plain())
    }
}

impl TotalOrder for EndedRow {
    ghost exact = { ended_exact };
}
