// A field read as a value that text can write.
ghost use Rattle.std.specs.Prelude.{Ok, MatchOption};
ghost use Rattle.fields.specs.Parses.{ParsesNone};

use std::str::FromStr;

// A word that names nothing of its kind.
#[derive(Clone, Copy, PartialEq, Eq, Debug)]
pub struct UnknownWord;

// The value that a field writes; none if it is no text, or text that writes none.
pub fn parse_field<T: FromStr>(field: &[u8]) -> Option<T>
where
    T::Err: Drop,
    ensures { MatchOption result (ParsesNone T.FromStr.from_str_gives field.now) (λ x. T.FromStr.from_str_gives field.now (Ok x)) }
{
    std::str::from_utf8(field).ok()?.parse().ok()
}
