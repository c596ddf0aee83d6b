//! UTF-8.

ghost use Rattle.std.specs.Prelude.{◌≡◌, IsUtf8, MatchBool};
ghost use Rattle.text.specs.Utf8Test.{utf8};

use std::str::from_utf8;

/// Whether the bytes are the UTF-8 of some characters.
pub fn is_utf8(bytes: &[u8]) -> bool
    ensures test { result ≡ utf8 bytes.now }
    ensures means { MatchBool result (IsUtf8 bytes.now) (IsUtf8 bytes.now → ⊥) }
{
    from_utf8(bytes).is_ok()
}
