// What a verdict speaks of: the operations, epochs and calls that it names, found in the text.
#![tactic(auto)]

pub mod explain;
pub mod parts;
mod scan;
mod wanted;
