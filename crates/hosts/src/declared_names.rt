//! The names that a file declares.

ghost use Rattle.std.specs.Prelude.{◌≡◌};
ghost use Rattle.std.specs.Iterator.{YieldsFirstRef, item_count};
ghost use Rattle.hosts.specs.NameMeaning.{declared, names_left};

use packed::{Field, Fields};

/// The names that the fields before `end` declare, in order; none comes from behind a field that cannot be read.
#[derive(Drop)]
pub(crate) struct DeclaredNames<'a> {
    fields: Fields<'a>,
    end: usize,
}

impl<'a> DeclaredNames<'a> {
    /// The declared names of a file, up to the end.
    pub(crate) fn new(file: &'a [u8], end: usize) -> DeclaredNames<'a>
        ensures { names_left result ≡ declared file.now end }
    {
        DeclaredNames {
            fields: Fields::new(file),
            end,
        }
    }
}

impl<'a> Iterator for DeclaredNames<'a> {
    type Item = &'a [u8];

    ghost next_gives = { YieldsFirstRef names_left };

    ghost remaining = { item_count names_left };

    #[inline(always)]
    fn next(&mut self) -> Option<&'a [u8]> {
        // A chain of adapters would stand twice, where names are counted and where one is looked for, as no function can answer `impl Iterator`.
        while let Some(field) = self.fields.next() {
            match field {
                Ok((place, Field::Name(name))) if place < self.end => return Some(name),
                Ok((place, _)) if place < self.end => {}
                _ => break,
            }
        }
        self.end = 0;
        None
    }
}
