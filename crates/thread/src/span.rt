// The span of an ended epoch: it covers its begin and stops before its end.
ghost use Rattle.std.specs.Prelude.{◌≡◌, ◌<◌};

use std::marker::Model;

#[derive(Clone, Copy)]
pub struct Span {
    begin: u64,
    end: u64,
}

impl Model for Span {
    ghost use Rattle.std.specs.Prelude.{◌<◌};
    ghost use Rattle.thread.specs.Extent.{Extent};

    ghost Value = { Extent };

    ghost view = { λ s. record { begin = s.begin; end = s.end } };

    ghost invariant = { λ s. s.begin < s.end };

    ghost inverse = { λ e. record { begin = e.begin; end = e.end } };
}

impl Span {
    // A span is made only where its begin is the smaller.
    pub fn new(begin: u64, end: u64) -> Span
        requires { begin < end }
        ensures begin { result.begin ≡ begin }
        ensures end { result.end ≡ end }
    {
        Span { begin, end }
    }

    // The time of its begin.
    pub fn begin(self) -> u64
        ensures { result ≡ self.begin }
    {
        self.begin
    }

    // The time of its end, which is greater.
    pub fn end(self) -> u64
        ensures end { result ≡ self.end }
        ensures rises { self.begin < result }
    {
        self.end
    }
}
