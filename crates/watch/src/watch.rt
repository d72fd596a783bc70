// A watch: an ordering rule and the table that the calls change.
use std::marker::Model;
use table::table::Table;

mod asking;
mod calls;
mod making;

#[derive(Drop)]
pub struct Watch<R> {
    rule: R,
    table: Table,
}

// A clause sees the rule and the state of the table.
impl<R> Model for Watch<R> {
    ghost use Rattle.watch.specs.Took.{Held};

    ghost Value = { Held R };

    ghost view = { λ w. record { rule = w.rule; state = w.table } };
}
