//! One field of a file.

ghost use Rattle.std.specs.Prelude.{◌≡◌};
ghost use Rattle.packed.specs.Fields.{told, has_node_tag, tag_named, field_of};
ghost use Rattle.packed.specs.Layout.{Reads};
ghost use Rattle.packed.specs.Reading.{said, read_at};

use super::node::RawNode;
use super::refusal::{Reason, Refusal};
use super::switch::Switch;
use super::tag::Tag;
use super::value_type::ValueType;

/// The longest file that is read, in bytes.
pub const MAX_FILE: usize = 65_535;

/// What a file says of a reference: whether its name is outer (not declared by the hook), and its type, if one is known.
#[derive(Clone, Copy)]
pub struct Scope {
    pub reference: u16,
    pub outer: bool,
    pub value_type: Option<ValueType>,
}

/// A field; its texts are parts of the file.
#[derive(Clone, Copy)]
pub enum Field<'a> {
    Node(RawNode<'a>),
    Scope(Scope),
    /// A switch to loosen, so that it is no longer counted.
    Switch(Switch),
    /// A name that the hook declares.
    Name(&'a [u8]),
    /// An unknown tag, or a payload that its tag does not allow; which refusal that is depends on the caller.
    /// The tag is a number, since an unknown one is no `Tag`.
    Other { tag: u8, payload: &'a [u8] },
}

impl Field<'_> {
    /// The tag, if it is a known one, whatever the payload.
    #[inline(always)]
    pub fn tag(self) -> Option<Tag>
        ensures { result ≡ tag_named (told self.entry) }
    {
        match self {
            Field::Node(_) => Some(Tag::Node),
            Field::Scope(_) => Some(Tag::Scope),
            Field::Switch(_) => Some(Tag::Switch),
            Field::Name(_) => Some(Tag::Name),
            Field::Other { tag, .. } => Tag::try_from(tag).ok(),
        }
    }

    /// Whether the tag is that of a node, whatever the payload.
    #[inline(always)]
    pub fn has_node_tag(self) -> bool
        ensures { result ≡ has_node_tag (told self.entry) }
    {
        self.tag() == Some(Tag::Node)
    }
}

// The tag is a number here too, since `Other` keeps an unknown one.
#[inline(always)]
fn field_of(tag: u8, payload: &[u8]) -> Field<'_>
    ensures { told result ≡ field_of tag payload.now }
{
    match (Tag::try_from(tag), payload) {
        (Ok(Tag::Node), [kind, detail, c1, c0, r1, r0, text @ ..]) => Field::Node(RawNode {
            kind: *kind,
            detail: *detail,
            count: u16::from_be_bytes([*c1, *c0]),
            reference: u16::from_be_bytes([*r1, *r0]),
            text,
        }),
        (Ok(Tag::Scope), [r1, r0, outer @ 0..=1, number @ 0..=8]) => Field::Scope(Scope {
            reference: u16::from_be_bytes([*r1, *r0]),
            outer: *outer == 1,
            value_type: ValueType::try_from(*number).ok(),
        }),
        (Ok(Tag::Switch), [number]) => match Switch::try_from(*number) {
            Ok(switch) => Field::Switch(switch),
            Err(_) => Field::Other { tag, payload },
        },
        (Ok(Tag::Name), _) => Field::Name(payload),
        _ => Field::Other { tag, payload },
    }
}

/// The field at `place` and the place of the next; or the refusal of a file that is too long, or of a field that is cut.
#[inline(always)]
pub fn read_field(file: &[u8], place: usize) -> Result<(Field<'_>, usize), Refusal>
    ensures answer { said result ≡ read_at file.now place }
    ensures held { Reads file.now place (said result) }
{
    if file.len() > MAX_FILE {
        return Err(Refusal {
            reason: Reason::Full,
            place: MAX_FILE,
        });
    }
    let cut = Refusal {
        reason: Reason::CutField,
        place,
    };
    let Some([tag, high, low, rest @ ..]) = file.get(place..) else {
        return Err(cut);
    };
    let Some(payload) = rest.get(..usize::from(u16::from_be_bytes([*high, *low]))) else {
        return Err(cut);
    };
    Ok((field_of(*tag, payload), place + 3 + payload.len()))
}
