// What a watch keeps of a thread: its clock, its outstanding operations and its open epochs.
#![tactic(auto)]

mod attempt;
pub mod limits;
mod lookups;
pub mod row;
mod rows;
pub mod served;
pub mod span;
