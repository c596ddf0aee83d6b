//! The tags of fields.

ghost use Rattle.std.specs.Prelude.{◌≡◌};
ghost use Rattle.std.specs.Option.{ok_or};
ghost use Rattle.packed.specs.declared.refusal.Reason.TheVariants.{WrongTag};
ghost use Rattle.packed.specs.Tags.{tag_of};

use super::refusal::Reason;

/// What a field is about.
#[derive(Clone, Copy, Debug, PartialEq, Eq)]
pub enum Tag {
    Node = 1,
    Scope = 2,
    Switch = 3,
    Name = 4,
}

impl TryFrom<u8> for Tag {
    type Error = Reason;

    ghost try_from_gives = { λ n r. r ≡ ok_or (tag_of n) WrongTag };

    fn try_from(number: u8) -> Result<Tag, Reason> {
        match number {
            1 => Ok(Tag::Node),
            2 => Ok(Tag::Scope),
            3 => Ok(Tag::Switch),
            4 => Ok(Tag::Name),
            _ => Err(Reason::WrongTag),
        }
    }
}
