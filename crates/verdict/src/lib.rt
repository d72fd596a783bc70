// The verdict on a trace, and the line that tells it.
#![tactic(auto)]

pub mod report;
pub mod shown;
pub mod verdict;
