// Events: what a line of a trace can say, the words that name events, and their numbers.
#![tactic(auto)]

pub mod event;
pub mod kind;
pub mod row;
