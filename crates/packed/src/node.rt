//! The node field at a place.

ghost use Rattle.std.specs.Prelude.{◌≡◌};
ghost use Rattle.packed.specs.Reading.{said_node, node_at};

use super::field::{Field, read_field};
use super::refusal::{Reason, Refusal};

/// A node as the file has it; its text is a part of the file.
#[derive(Clone, Copy)]
pub struct RawNode<'a> {
    // The file's bytes: an unknown kind or detail is a node here, and is refused by `add`, after other faults of a field.
    pub kind: u8,
    pub detail: u8,
    /// How many children it has.
    pub count: u16,
    /// The number of an identifier's reference, 0 for none.
    pub reference: u16,
    pub text: &'a [u8],
}

/// The node at `place` and the place of the next field, or the refusal of what is no node.
#[inline(always)]
pub fn node_at(file: &[u8], place: usize) -> Result<(RawNode<'_>, usize), Refusal>
    ensures { said_node result ≡ node_at file.now place }
{
    let (field, next) = read_field(file, place)?;
    if let Field::Node(node) = field {
        return Ok((node, next));
    }
    let reason = if field.has_node_tag() {
        Reason::BadHeader
    } else {
        Reason::WrongTag
    };
    Err(Refusal { reason, place })
}
