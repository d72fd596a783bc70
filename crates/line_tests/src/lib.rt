// Lines read and written, by example.
#![tactic(auto)]

#[cfg(test)]
mod tests;
