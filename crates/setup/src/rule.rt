// The names of the ordering rules.
ghost use Rattle.std.specs.Prelude.{◌≡◌};
ghost use Rattle.std.specs.Option.{ok_or};
ghost use Rattle.setup.specs.Rules.{name_of, rule_named};
ghost use Rattle.fields.specs.declared.parse.UnknownWord.{UnknownWord};

use crate::setup::RuleName;
use fields::parse::{UnknownWord, parse_field};
use std::str::FromStr;

impl RuleName {
    // The rule's name, as a trace writes it: the literal by which the named rules pick themselves. No Display, since the text itself is parsed again.
    pub fn name(self) -> &'static str
        ensures { result.now ≡ name_of self }
    {
        match self {
            RuleName::Sc => "sc",
            RuleName::Tso => "tso",
            RuleName::Pso => "pso",
            RuleName::Rmo => "rmo",
        }
    }

    // The rule that a field names, if it names one: a name for the generic parse, as an event's word has.
    pub fn from_bytes(field: &[u8]) -> Option<RuleName>
        ensures { result ≡ rule_named field.now }
    {
        parse_field(field)
    }
}

impl FromStr for RuleName {
    type Err = UnknownWord;

    ghost from_str_gives = { λ name r. r ≡ ok_or (rule_named name) (record {}) };

    fn from_str(name: &str) -> Result<RuleName, UnknownWord> {
        match name {
            "sc" => Ok(RuleName::Sc),
            "tso" => Ok(RuleName::Tso),
            "pso" => Ok(RuleName::Pso),
            "rmo" => Ok(RuleName::Rmo),
            _ => Err(UnknownWord),
        }
    }
}
