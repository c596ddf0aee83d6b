//! The fields of a file, one behind the other.

ghost use Rattle.std.specs.Prelude.{◌≡◌};
ghost use Rattle.std.specs.Iterator.{YieldsFirstBy, item_count};
ghost use Rattle.packed.specs.Listing.{said_field, fields_at, fields_left};

use super::field::{Field, read_field};
use super::refusal::Refusal;

/// Fields, each with the place where it begins, up to the end of the file; behind a refusal comes nothing.
#[derive(Clone, Drop)]
pub struct Fields<'a> {
    file: &'a [u8],
    /// Where the next field begins.
    place: usize,
}

impl<'a> Fields<'a> {
    /// All fields of a file.
    pub fn new(file: &'a [u8]) -> Fields<'a>
        ensures { fields_left result ≡ fields_at file.now 0 }
    {
        Fields { file, place: 0 }
    }
}

impl<'a> Iterator for Fields<'a> {
    type Item = Result<(usize, Field<'a>), Refusal>;

    ghost next_gives = { YieldsFirstBy said_field fields_left };

    ghost remaining = { item_count fields_left };

    #[inline(always)]
    fn next(&mut self) -> Option<Result<(usize, Field<'a>), Refusal>> {
        let place = self.place;
        if place == self.file.len() {
            return None;
        }
        match read_field(self.file, place) {
            Ok((field, next)) => {
                self.place = next;
                Some(Ok((place, field)))
            }
            Err(refusal) => {
                self.place = self.file.len();
                Some(Err(refusal))
            }
        }
    }
}
