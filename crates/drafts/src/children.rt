//! Whether the children of a node are what its row allows.

ghost use Rattle.std.specs.Prelude.{◌≡◌, ◌==◌};
ghost use Rattle.drafts.specs.Kinds.{number_of};
ghost use Rattle.drafts.specs.Grammar.{set_of, least_of, most_of, first_is, has as belongs, within, target, link, fits as allowed};

use super::kind::Kind;
use super::record::Record;
use super::row::{Children, Item, Set};
use super::waiting::{Last, Subtree};

/// The detail of a TypeScript expression that is a non-null assertion.
const NON_NULL: u8 = 3;

/// The detail of a TypeScript expression that is an instantiation; those before it stand around what can be written.
const INSTANTIATION: u8 = 4;

/// The detail of a call that is no other act.
const CALL: u8 = 0;

/// The first detail of a variable declaration that is a `using` one.
const USING: u8 = 3;

// A detail is a number below, since what its bits mean depends on the kind: an enum for each kind would make one bit of a row no plainer.
impl Item {
    fn set(self) -> Set
        ensures { result ≡ set_of self }
    {
        match self {
            Item::One(set)
            | Item::Maybe(set)
            | Item::Many(set)
            | Item::AtLeastOne(set)
            | Item::If(_, set) => set,
        }
    }

    fn least(self, detail: u8) -> u16
        ensures { result ≡ least_of self detail }
    {
        match self {
            Item::Maybe(_) | Item::Many(_) => 0,
            Item::One(_) | Item::AtLeastOne(_) => 1,
            Item::If(flag, _) => { if flag.is_set(detail) { 1 } else { 0 } }
        }
    }

    fn most(self, detail: u8) -> u16
        ensures { result ≡ most_of self detail }
    {
        match self {
            Item::One(_) | Item::Maybe(_) => 1,
            Item::Many(_) | Item::AtLeastOne(_) => u16::MAX,
            Item::If(flag, _) => { if flag.is_set(detail) { 1 } else { 0 } }
        }
    }
}

impl Record {
    /// Whether it has this kind.
    fn is(self, kind: Kind) -> bool
        ensures { result ≡ (self.kind == number_of kind) }
    {
        self.kind == u8::from(kind)
    }

    /// Whether its kind stands from the first to the second.
    fn is_among(self, first: Kind, last: Kind) -> bool
        ensures { result ≡ within (number_of first) (number_of last) self.kind }
    {
        (u8::from(first)..=u8::from(last)).contains(&self.kind)
    }

    /// Whether an update may write it.
    fn is_target(self) -> bool
        ensures { result ≡ target self.kind self.detail }
    {
        self.is(Kind::Identifier)
            || self.is_among(Kind::StaticMemberExpression, Kind::PrivateFieldExpression)
            || (self.is(Kind::TypeScriptExpression) && self.detail < INSTANTIATION)
    }

    /// Whether a chain may hold it.
    fn is_link(self) -> bool
        ensures { result ≡ link self.kind self.detail }
    {
        self.is_among(Kind::StaticMemberExpression, Kind::PrivateFieldExpression)
            || (self.is(Kind::CallExpression) && self.detail == CALL)
            || (self.is(Kind::TypeScriptExpression) && self.detail == NON_NULL)
    }

    /// Whether it is an expression.
    fn is_expression(self) -> bool
        ensures { result ≡ within 1 25 self.kind }
    {
        self.is_among(Kind::Identifier, Kind::ClassExpression)
    }

    /// Whether it is a pattern.
    fn is_pattern(self) -> bool
        ensures { result ≡ within 42 45 self.kind }
    {
        self.is_among(Kind::BindingIdentifier, Kind::AssignmentPattern)
    }
}

impl Subtree<'_> {
    ghost use Rattle.drafts.specs.Tree.{children_in};
    ghost use Rattle.drafts.specs.Walk.{subtree};

    /// Whether its first child has this kind.
    fn starts_with(self, kind: Kind) -> bool
        ensures { result ≡ first_is (number_of kind) (children_in self.entry.source self.entry.index) }
    {
        self.children()
            .last()
            .is_some_and(|child| child.record().is(kind))
    }

    /// Whether it belongs to the set, as a child of a node with this detail.
    fn belongs(self, set: Set, detail: u8) -> bool
        ensures { result ≡ belongs set detail (subtree self.entry) }
    {
        let record = self.record();
        match set {
            Set::Any => true,
            Set::Exactly(kind) => record.is(kind),
            Set::Expression => record.is_expression(),
            Set::Pattern => record.is_pattern(),
            Set::Statement => record.is_among(Kind::BlockStatement, Kind::ClassDeclaration),
            Set::Target => record.is_target(),
            Set::Assigned => record.is_target() || record.is(Kind::AssignmentTargetPattern),
            Set::Element => record.is_expression()
                || record.is_among(Kind::SpreadElement, Kind::Elision),
            Set::PatternOrHole => record.is_pattern() || record.is(Kind::Elision),
            Set::Property => record.is_among(Kind::ObjectProperty, Kind::SpreadProperty),
            Set::ClassElement => record.is_among(Kind::Decorator, Kind::StaticBlock),
            Set::Link => record.is_link(),
            Set::Declarator => record.is(Kind::VariableDeclarator)
                && (detail < USING || self.starts_with(Kind::BindingIdentifier)),
        }
    }
}

impl Last<'_> {
    ghost use Rattle.drafts.specs.Walk.{last_nodes};

    /// Whether these nodes are what the items allow, as children of a node with this detail.
    pub(crate) fn fit(self, items: &[Item], detail: u8) -> bool
        ensures { result ≡ allowed items.now detail (last_nodes self.entry) }
    {
        let Some((item, before)) = items.split_last() else {
            return self.count == 0;
        };
        let set = item.set();
        let least = item.least(detail);
        let mut rest = self;
        for taken in 0..item.most(detail) {
            if taken >= least && rest.fit(before, detail) {
                return true;
            }
            let Some(node) = rest.next() else {
                return false;
            };
            if !node.belongs(set, detail) {
                return false;
            }
        }
        rest.fit(before, detail)
    }
}

impl Children {
    ghost use Rattle.std.specs.Prelude.{◌&&◌, nat_le};
    ghost use Rattle.drafts.specs.Table.{fewest_in, items_in};
    ghost use Rattle.drafts.specs.Tree.{many};
    ghost use Rattle.drafts.specs.Walk.{last_nodes};

    /// Whether a node with this detail may have these children.
    #[inline(always)]
    pub(crate) fn allow(self, nodes: Last<'_>, detail: u8) -> bool
        ensures { result ≡ (nat_le (fewest_in self) (many (last_nodes nodes.entry)) && allowed (items_in self) detail (last_nodes nodes.entry)) }
    {
        match self {
            Children::Leaf => nodes.count == 0,
            Children::Only(a) => nodes.fit(&[a], detail),
            Children::Pair(a, b) => nodes.fit(&[a, b], detail),
            Children::Three(a, b, c) => nodes.fit(&[a, b, c], detail),
            Children::AtLeastTwo(a, b, c) => nodes.count >= 2 && nodes.fit(&[a, b, c], detail),
        }
    }
}
