// The inner table of a watch: its plain rows, and what each call does to them.
#![tactic(auto)]

pub mod fault;
pub mod table;
