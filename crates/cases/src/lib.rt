// Worked cases: calls of a watch, with the answers and states that they must lead to, each computed from the meaning of the calls.
#![tactic(auto)]

pub mod ended;
pub mod held;
pub mod judged;
pub mod near;
pub mod performed;
pub mod records;
pub mod refused;
pub mod runs;
pub mod traced;
