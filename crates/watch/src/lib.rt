// The watch: a rule and a table, its calls, and what it promises.
#![tactic(auto)]

pub mod notice;
pub mod threads;
pub mod watch;

pub use table::fault::Fault;
pub use thread::served::Performed;
