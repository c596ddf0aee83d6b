//! Integer indices: whole numbers from 0 to 4,294,967,295.

ghost use Rattle.std.specs.Prelude.{◌≡◌, not, T, is_nan};
ghost use Rattle.text.specs.Indices.{float_index, number_index, digits_index};

use crate::number::number_literal;
use std::num::saturating_f64_to_u32;

/// The number that a float is, where it is whole and a `u32`.
fn to_integer_index(x: f64) -> Option<u32>
    requires { T (not (is_nan x)) }
    ensures { result ≡ float_index x }
{
    let n = saturating_f64_to_u32(x);
    (f64::from(n).to_bits() == x.to_bits()).then_some(n)
}

/// The index that the text of a number literal writes.
pub fn number_index(text: &[u8]) -> Option<u32>
    ensures { result ≡ number_index text.now }
{
    let x = number_literal(text)?;
    to_integer_index(x)
}

/// The index that the text of a BigInt literal writes, read off its digits; `parse` would take a `+` too.
pub fn big_int_index(text: &str) -> Option<u32>
    ensures { result ≡ digits_index text.now }
{
    if text.starts_with('+') {
        return None;
    }
    text.parse::<u32>().ok()
}
