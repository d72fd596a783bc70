// A text cut at a byte.
ghost use Rattle.std.specs.Prelude.{◌≡◌, ◌==◌, ◌<◌, [], ◌∷◌, length, position, IfSome, MatchOption};
ghost use Rattle.fields.specs.Splits.{split};

// Where a byte stands first.
fn first_at(text: &[u8], mark: u8) -> Option<usize>
    ensures { result ≡ position (λ b. b == mark) text.now }
{
    text.iter().position(|b| *b == mark)
}

// What stands before the first `mark`, and what after it.
pub fn cut(text: &[u8], mark: u8) -> Option<(&[u8], &[u8])>
    ensures value { MatchOption result (split mark text.now ≡ text.now ∷ []) (λ p. split mark text.now ≡ p.0.now ∷ split mark p.1.now) }
    ensures bound { IfSome result (λ p. length p.1.now < length text.now) }
{
    let at = first_at(text, mark)?;
    Some((&text[..at], &text[at + 1..]))
}
