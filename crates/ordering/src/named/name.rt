// The names of the named rules.
ghost use Rattle.std.specs.Prelude.{◌≡◌, ok_or};
ghost use Rattle.ordering.specs.Names.{rule_named};

use crate::named::{NamedRule, UnknownName};
use std::str::FromStr;

// The rule of a lower-case name.
impl FromStr for NamedRule {
    type Err = UnknownName;

    ghost from_str_gives = { λ name rule. rule ≡ ok_or (rule_named name) (record {}) };

    fn from_str(name: &str) -> Result<NamedRule, UnknownName> {
        match name {
            "sc" => Ok(NamedRule::Sc),
            "tso" => Ok(NamedRule::Tso),
            "pso" => Ok(NamedRule::Pso),
            "rmo" => Ok(NamedRule::Rmo),
            _ => Err(UnknownName),
        }
    }
}
