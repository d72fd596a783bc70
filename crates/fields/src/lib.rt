// The fields of a line: a text cut at a byte, and a number in base ten.
#![tactic(auto)]

pub mod cut;
pub mod number;
pub mod parse;
