// What the calls of a watch mean: the rows that it keeps, its answers, and one step of it.
#![tactic(auto)]

pub mod class;
pub mod counts;
pub mod kind;
pub mod row;
pub mod verdict;
