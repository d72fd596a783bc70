// Ordering rules: which two operations of a thread have to perform in program order.
#![tactic(auto)]

pub mod bytes;
pub mod class;
pub mod laws;
pub mod named;
pub mod rule;
