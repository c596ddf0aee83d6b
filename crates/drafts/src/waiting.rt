//! The nodes that wait, walked from the last one back.

ghost use Rattle.std.specs.Prelude.{◌≡◌, ◌+◌, ◌<◌, ◌≤◌, length, MatchOption};
ghost use Rattle.drafts.specs.Tree.{waits, SpannedIn, many};

use super::record::{Record, Source};

/// A node of a source, with the nodes below it.
#[derive(Clone, Copy)]
pub(crate) struct Subtree<'a> {
    pub(crate) source: Source<'a>,
    pub(crate) index: usize,
    ghost spanned: { SpannedIn source (index + 1) },
    ghost within: { index < length source.records.now },
}

/// The nodes that wait after the first `end` records of a source, from the last one back.
#[derive(Clone, Copy)]
pub(crate) struct Waiting<'a> {
    pub(crate) source: Source<'a>,
    pub(crate) end: usize,
    ghost spanned: { SpannedIn source end },
    ghost within: { end ≤ length source.records.now },
}

/// The last nodes that wait, so many, from the last one back.
#[derive(Clone, Copy)]
pub(crate) struct Last<'a> {
    pub(crate) waiting: Waiting<'a>,
    pub(crate) count: u16,
    ghost enough: { count ≤ many (waits waiting.source waiting.end) },
}

impl<'a> Iterator for Waiting<'a> {
    type Item = Subtree<'a>;

    ghost use Rattle.std.specs.Iterator.{YieldsFirstBy, item_count};
    ghost use Rattle.drafts.specs.Walk.{subtree, left};

    ghost next_gives = { YieldsFirstBy subtree left };

    ghost remaining = { item_count left };

    #[inline(always)]
    fn next(&mut self) -> Option<Subtree<'a>> {
        let source = self.source;
        let index = self.end.checked_sub(1)?;
        let node = Subtree { source, index };
        let before = self.end - usize::from(node.record().span);
        *self = Waiting {
            source,
            end: before,
        };
        Some(node)
    }
}

impl<'a> Iterator for Last<'a> {
    type Item = Subtree<'a>;

    ghost use Rattle.std.specs.Iterator.{YieldsFirstBy, item_count};
    ghost use Rattle.drafts.specs.Walk.{subtree, last_left};

    ghost next_gives = { YieldsFirstBy subtree last_left };

    ghost remaining = { item_count last_left };

    #[inline(always)]
    fn next(&mut self) -> Option<Subtree<'a>> {
        let count = self.count.checked_sub(1)?;
        let mut waiting = self.waiting;
        let node = waiting.next()?;
        *self = Last { waiting, count };
        Some(node)
    }
}

impl<'a> Waiting<'a> {
    ghost use Rattle.drafts.specs.Walk.{LastOf};

    /// The last `count` nodes, and where the subtrees of these begin, if so many wait.
    #[inline(always)]
    pub(crate) fn last(self, count: u16) -> Option<(Last<'a>, usize)>
        ensures { MatchOption result (many (waits self.entry.source self.entry.end) < count) (LastOf self.entry count) }
    {
        let mut before = self;
        // No `nth`: it would not say whether fewer wait, or none behind them.
        for _ in 0..count {
            before.next()?;
        }
        let last = Last {
            waiting: self,
            count,
        };
        Some((last, before.end))
    }
}

impl<'a> Subtree<'a> {
    ghost use Rattle.drafts.specs.Tree.{at, children_in};
    ghost use Rattle.drafts.specs.Walk.{last_nodes};

    /// Its record.
    pub(crate) fn record(self) -> Record
        ensures { result ≡ at self.entry.source.records.now self.entry.index }
    {
        self.source.records[self.index]
    }

    /// Its children.
    pub(crate) fn children(self) -> Last<'a>
        ensures { last_nodes result ≡ children_in self.entry.source self.entry.index }
    {
        Last {
            waiting: Waiting {
                source: self.source,
                end: self.index,
            },
            count: self.record().count,
        }
    }
}
