// A verdict in words: the sentence of an explanation.
#![tactic(auto)]

mod operation;
pub mod shown;
mod words;
