//! `find`, over small tables.

ghost use Rattle.std.specs.Prelude.{◌≡◌, [], ◌∷◌, cond, true, codes};
ghost use Rattle.std.proofs.Common.{refl};
ghost use Rattle.std.proofs.lemmas.Bool.{cond_both};
ghost use Rattle.tables.specs.Order.{ascends};

use std::cmp::Ordering;
use tables::{Ascending, OrderedTable, find};

/// A table of the number 9, or one without entries.
struct AtMostOne {
    has_entry: bool,
}

impl Ascending for AtMostOne {
    ghost keys = { λ t. cond t.has_entry ((9 ∷ []) ∷ []) [] };

    ghost ascent = { λ t. cond_both t.has_entry _ _ (λ ks. ascends ks ≡ true) (λ _. refl) (λ _. refl) };

    fn len(&self) -> usize {
        usize::from(self.has_entry)
    }
}

impl OrderedTable<u16> for AtMostOne {
    ghost sought = { λ n. n ∷ [] };

    fn compare(&self, _i: usize, key: u16) -> Ordering {
        9u16.cmp(&key)
    }
}

/// The numbers of the table `Numbers`.
const NUMBERS: [u16; 6] = [3, 7, 8, 300, 301, 40_000];

/// A table of six numbers.
struct Numbers;

impl Ascending for Numbers {
    ghost keys = { λ _. (3 ∷ []) ∷ ((7 ∷ []) ∷ ((8 ∷ []) ∷ ((300 ∷ []) ∷ ((301 ∷ []) ∷ ((40000 ∷ []) ∷ []))))) };

    ghost ascent = { λ _. refl };

    fn len(&self) -> usize {
        6
    }
}

impl OrderedTable<u16> for Numbers {
    ghost sought = { λ n. n ∷ [] };

    fn compare(&self, i: usize, key: u16) -> Ordering {
        NUMBERS[i].cmp(&key)
    }
}

/// The names of the table `Names`.
const NAMES: [&str; 4] = ["a", "ab", "b", "ba"];

/// A table of four names, of which two begin another.
struct Names;

impl Ascending for Names {
    ghost keys = { λ _. codes "a" ∷ (codes "ab" ∷ (codes "b" ∷ (codes "ba" ∷ []))) };

    ghost ascent = { λ _. refl };

    fn len(&self) -> usize {
        4
    }
}

impl<'a> OrderedTable<&'a str> for Names {
    ghost sought = { λ k. k.now };

    fn compare(&self, i: usize, key: &'a str) -> Ordering {
        NAMES[i].cmp(&key)
    }
}

#[test]
fn tables_of_numbers(rt: HostRuntime) {
    for number in [0u16, 1, 8, 9, 10, 65_535] {
        assert_eq!(rt; find(&AtMostOne { has_entry: false }, number), None);
        assert_eq!(rt;
            find(&AtMostOne { has_entry: true }, number),
            if number == 9 { Some(0) } else { None }
        );
    }
    for (i, number) in NUMBERS.iter().enumerate() {
        assert_eq!(rt; find(&Numbers, *number), Some(i));
    }
    for number in [0u16, 1, 2, 4, 6, 9, 256, 299, 302, 39_999, 40_001, 65_535] {
        assert_eq!(rt; find(&Numbers, number), None, "{}", number);
    }
}

#[test]
fn a_table_of_names(rt: HostRuntime) {
    for (i, name) in NAMES.iter().enumerate() {
        assert_eq!(rt; find(&Names, *name), Some(i));
    }
    for name in ["", "A", "B", "aa", "aba", "ac", "bab", "bb", "c", "é"] {
        assert_eq!(rt; find(&Names, name), None, "{}", name);
    }
}
