//! Node records: a tree in post-order, each node behind its children.

/// A node of a draft. Its children are the last `count` nodes that waited before it; the text is read in the file at `place`.
#[derive(Clone, Copy, Debug, Default, PartialEq, Eq)]
pub struct Record {
    /// Where its field begins in the file.
    pub place: u16,
    // Numbers, and no enums: a caller may lend records of any content, and an enum would ask more of it.
    pub kind: u8,
    pub detail: u8,
    pub count: u16,
    /// The number of an identifier's reference, 0 for none.
    pub reference: u16,
    /// How many nodes its subtree has.
    pub span: u16,
}

/// A file and records made from it; the tree stays in the table that the caller lends, since no call takes memory of its own.
#[derive(Clone, Copy)]
pub struct Source<'a> {
    pub file: &'a [u8],
    pub records: &'a [Record],
}
