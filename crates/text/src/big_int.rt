//! BigInt literals.

ghost use Rattle.std.specs.Prelude.{◌≡◌};
ghost use Rattle.std.specs.Str.{all_ascii_digits};
ghost use Rattle.text.specs.BigInts.{positive, big_int};

/// Whether each byte is a decimal digit.
fn all_digits(text: &[u8]) -> bool
    ensures { result ≡ all_ascii_digits text.now }
{
    text.iter().all(|b| b.is_ascii_digit())
}

/// Whether the text is digits, the first not `0`.
fn is_positive(text: &[u8]) -> bool
    ensures { result ≡ positive text.now }
{
    match text {
        [] | [b'0', ..] => false,
        _ => all_digits(text),
    }
}

/// Whether the text is a BigInt literal: `0`, or an optional `-` and digits of which the first is not `0`.
pub fn is_big_int(text: &[u8]) -> bool
    ensures { result ≡ big_int text.now }
{
    match text {
        [b'0'] => true,
        [b'-', rest @ ..] => is_positive(rest),
        _ => is_positive(text),
    }
}
