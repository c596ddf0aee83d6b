//! A draft.

ghost use Rattle.std.specs.Prelude.{◌≡◌};

/// A draft: how many records of the lent table are its nodes. Only `open` makes one, and it cannot be copied.
#[derive(Drop)]
pub struct Draft {
    pub(crate) nodes: u16,
}

/// A draft without nodes.
pub fn open() -> Draft
    ensures { result.nodes ≡ 0 }
{
    Draft { nodes: 0 }
}

impl Draft {
    /// How many nodes the draft has.
    pub fn nodes(&self) -> u16
        ensures { result ≡ self.now.nodes }
    {
        self.nodes
    }
}
