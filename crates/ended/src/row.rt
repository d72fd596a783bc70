// The row of an ended epoch.
ghost use Rattle.std.specs.Prelude.{◌≡◌, nat_lt};

use semantics::row::Ended;
use std::marker::Model;
use thread::span::Span;

// An ended epoch under the number of its notice; its value went from `start` to `last`.
#[derive(Clone, Copy)]
pub struct EndedRow {
    pub span: Span,
    pub number: u64,
    pub thread: u64,
    pub writes: bool,
    pub place: u64,
    pub start: u64,
    pub last: u64,
}

// A clause sees the row with the two ends of its span.
impl Model for EndedRow {
    ghost use Rattle.semantics.specs.declared.row.Ended.{Ended};

    ghost Value = { Ended };

    ghost view = { λ e. record { from = e.span.begin; number = e.number; thread = e.thread; writes = e.writes; place = e.place; until = e.span.end; start = e.start; last = e.last } };

    ghost inverse = { λ p. record { span = record { begin = p.from; end = p.until }; number = p.number; thread = p.thread; writes = p.writes; place = p.place; start = p.start; last = p.last } };
}

impl EndedRow {
    // The row with the two ends of its span.
    pub fn plain(&self) -> Ended
        ensures { result ≡ self.now }
    {
        Ended {
            from: self.span.begin(),
            number: self.number,
            thread: self.thread,
            writes: self.writes,
            place: self.place,
            until: self.span.end(),
            start: self.start,
            last: self.last,
        }
    }

    // Whether it begins before a time.
    pub fn begins_before(&self, time: u64) -> bool
        ensures { result ≡ nat_lt self.now.from time }
    {
        self.span.begin() < time
    }
}

// What stands in a place that no epoch has. Written out, since a derived default would make a span of 0 and 0, whose begin is not below its end.
impl Default for EndedRow {
    ghost use Rattle.std.specs.Prelude.{false};

    ghost is_default = { λ e. e ≡ record { from = 0; number = 0; thread = 0; writes = false; place = 0; until = 1; start = 0; last = 0 } };

    fn default() -> EndedRow {
        EndedRow {
            span: Span::new(0, 1),
            number: 0,
            thread: 0,
            writes: false,
            place: 0,
            start: 0,
            last: 0,
        }
    }
}
