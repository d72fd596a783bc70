// What the second line of a trace sets.

// The ordering rules that a trace can name. Not the named rules themselves: a text may have more names than there are rules.
#[derive(Clone, Copy)]
pub enum RuleName {
    Sc,
    Tso,
    Pso,
    Rmo,
}

// The rule of a trace and its number of threads.
#[derive(Clone, Copy)]
pub struct Setup {
    pub rule: RuleName,
    pub threads: u64,
}
