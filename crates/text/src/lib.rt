// A whole trace: its headings, its setup and its events, read up to the first fault.
#![tactic(auto)]

pub mod fault;
pub mod limits;
mod lines;
pub mod reader;
