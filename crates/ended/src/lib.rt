// Ended epochs: their rows, the order in which they are judged, the rows that are owed and that wait, and the laws of a home.
#![tactic(auto)]

pub mod home;
pub mod order;
pub mod owed;
pub mod row;
pub mod waiting;
