//! Small sets of names.

ghost use Rattle.std.specs.Prelude.{◌≡◌, map};
ghost use Rattle.tables.specs.Order.{listed};

/// Whether the name is one of the names.
pub fn among(name: &str, names: &[&str]) -> bool
    ensures { result ≡ listed (map (λ t. t.now) names.now) name.now }
{
    names.iter().any(|known| *known == name)
}
