// The run of a trace text over a watch, and its verdict.
#![tactic(auto)]

pub mod fault;
pub mod judge;
mod play;
pub mod run;
