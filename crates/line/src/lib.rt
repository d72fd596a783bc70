// The line of an event, read and written, and what can go wrong with a text.
#![tactic(auto)]

pub mod code;
mod columns;
pub mod fault;
pub mod read;
pub mod write;
