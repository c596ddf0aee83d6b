//! The search, by halving.

ghost use Rattle.std.specs.Prelude.{◌≡◌, ℕ, ◌<◌, true, List, [], length, slice_index_or};
ghost use Rattle.tables.specs.Order.{order, ascends, position, Located};

use std::cmp::Ordering;

/// A table whose keys ascend strictly. A key stands for a list of numbers: a name for its bytes, a number for itself alone.
pub trait Ascending {
    /// The keys of the entries, in their order.
    ghost keys: { Self → List (List ℕ) };

    fn len(&self) -> usize
        ensures { result ≡ length (keys self.now) };

    ghost ascent: { (t : Self) → ascends (keys t) ≡ true };
}

/// A table that is searched for a key of type `K`.
pub trait OrderedTable<K>: Ascending {
    /// What a wanted key stands for.
    ghost sought: { K → List ℕ };

    /// The key of the entry `i` against the wanted one.
    fn compare(&self, i: usize, key: K) -> Ordering
        requires { i < length (Self.Ascending.keys self.now) }
        ensures { result ≡ order (slice_index_or (Self.Ascending.keys self.now) i []) (sought key) };
}

/// Where the wanted key stands in the table.
pub fn find<K: Copy, T: OrderedTable<K>>(table: &T, key: K) -> Option<usize>
    ensures value { result ≡ position (T.Ascending.keys table.now) (T.OrderedTable.sought key) }
    ensures located { Located (T.Ascending.keys table.now) (T.OrderedTable.sought key) result }
{
    // By hand: the library searches slices alone, and a table need not have one.
    let mut low = 0;
    let mut high = table.len();
    while low < high {
        let middle = low + (high - low) / 2;
        match table.compare(middle, key) {
            Ordering::Less => low = middle + 1,
            Ordering::Equal => return Some(middle),
            Ordering::Greater => high = middle,
        }
    }
    None
}
