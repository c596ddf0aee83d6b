//! Which host a file asks for.

ghost use Rattle.std.specs.Prelude.{◌≡◌, Some};
ghost use Rattle.packed.specs.Fields.{told};
ghost use Rattle.marking.specs.Choices.{decides, kind_of, kind_word};

use packed::{Field, Fields, Tag};
use std::fmt;

/// A kind of host.
#[derive(Clone, Copy, Debug, PartialEq, Eq)]
pub enum HostKind {
    /// One of scope records.
    Table,
    /// One of declared names.
    Names,
}

impl fmt::Display for HostKind {
    ghost output = { λ k. Some (kind_word k) };

    fn fmt<W: fmt::Write>(&self, f: &mut fmt::Formatter<W>) -> fmt::Result {
        match self {
            HostKind::Table => write!(f, "table"),
            HostKind::Names => write!(f, "names"),
        }
    }
}

/// The kind of host that a field decides for by its tag, if it does.
fn decided_by(field: Field<'_>) -> Option<HostKind>
    ensures { result ≡ decides (told field.entry) }
{
    match (field, field.tag()) {
        (Field::Name(_), _) => Some(HostKind::Names),
        (_, Some(Tag::Node | Tag::Scope)) => Some(HostKind::Table),
        _ => None,
    }
}

/// The name host, if a declared name comes before any scope record and the first node; else the table host.
pub fn host_kind(file: &[u8]) -> HostKind
    ensures { result ≡ kind_of file.now }
{
    Fields::new(file)
        .find_map(|field| decided_by(field.ok()?.1))
        .unwrap_or(HostKind::Table)
}
