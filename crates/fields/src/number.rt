// Numbers in base ten, as a field holds them.
ghost use Rattle.std.specs.Prelude.{◌≡◌, ◌||◌, ◌==◌, slice_index};
ghost use Rattle.fields.specs.Numbers.{number, padded};

use crate::parse::parse_field;

// Whether a plus sign, or a zero before another byte, stands in front.
fn has_prefix(field: &[u8]) -> bool
    ensures { result ≡ (slice_index field.now 0 == 43 || padded field.now) }
{
    matches!(field, [b'+', ..] | [b'0', _, ..])
}

// The number that a field writes: digits alone, no zero in front of another digit, at most 2^64 - 1.
pub fn read_number(field: &[u8]) -> Option<u64>
    ensures { result ≡ number field.now }
{
    if has_prefix(field) {
        return None;
    }
    parse_field(field)
}
