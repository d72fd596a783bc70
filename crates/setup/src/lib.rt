// The second line of a trace: its ordering rule and its number of threads.
#![tactic(auto)]

pub mod read;
pub mod rule;
pub mod setup;
