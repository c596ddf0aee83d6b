//! The known global identifiers.

ghost use Rattle.std.specs.Prelude.{◌≡◌, true};
ghost use Rattle.tables.specs.Order.{ascends, listed};
ghost use Rattle.known_globals.specs.Identifiers.{known_names};

use crate::names::part_of;
use tables::find;

/// Whether the name is a known global identifier, one that is read without side effects.
///
/// `NaN`, `Infinity` and `undefined` are not in the list: they are special cases of their own.
pub fn is_known_global_identifier(name: &str) -> bool
    ensures answer { result ≡ listed known_names name.now }
    ensures ascent { ascends known_names ≡ true }
{
    find(&part_of(name), name).is_some()
}
