// Tests of the ordering rules against expectations that are written out by hand.
#![tactic(auto)]

#[cfg(test)]
mod numbers;
#[cfg(test)]
mod rules;
#[cfg(test)]
mod tables;
