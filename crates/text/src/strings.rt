//! Strings as ECMA-262 has them: sequences of UTF-16 code units.

ghost use Rattle.std.specs.Prelude.{◌≡◌, length};
ghost use Rattle.std.specs.Str.{chars};
ghost use Rattle.text.specs.CodeUnits.{code_units, steps};

/// The length of the string: how many UTF-16 code units it has.
pub fn string_length(text: &str) -> usize
    ensures { result ≡ length (code_units (chars text.now)) }
{
    text.chars().map(|c| c.len_utf16()).sum()
}

/// How many steps an iteration over the string has: one for each code point.
pub fn iteration_steps(text: &str) -> usize
    ensures { result ≡ steps (code_units (chars text.now)) }
{
    text.chars().count()
}
