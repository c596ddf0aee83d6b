//! The rows: what a node of each kind may be.

ghost use Rattle.std.specs.Prelude.{◌≡◌, map};
ghost use Rattle.drafts.specs.Table.{rows, shape_in, row_of};
ghost use Rattle.drafts.specs.Flags.{set_in};

use super::kind::Kind;
use Children::{AtLeastTwo, Leaf, Only, Pair, Three};
use Item::{AtLeastOne, If, Many, Maybe, One};
use Set::{
    Any, Assigned, ClassElement, Declarator, Element, Exactly, Expression, Link, Pattern,
    PatternOrHole, Property, Statement, Target,
};

/// What a node of a kind may have or lack, as a bit of its detail says.
#[derive(Clone, Copy, Debug, PartialEq, Eq)]
pub enum Flag {
    /// Of a class.
    Superclass,
    /// Of a method: its key is a child.
    MethodKey,
    /// Of a field: its key is a child.
    FieldKey,
    /// Of a field.
    FieldValue,
    /// Of a case.
    Test,
}

impl Flag {
    /// Whether it is set in this detail.
    pub(crate) fn is_set(self, detail: u8) -> bool
        ensures { result ≡ set_in self detail }
    {
        let bit = match self {
            Flag::Superclass | Flag::MethodKey | Flag::Test => 1,
            Flag::FieldKey => 4,
            Flag::FieldValue => 8,
        };
        detail & bit != 0
    }
}

/// Nodes that may stand at a place among the children.
#[derive(Clone, Copy)]
pub enum Set {
    Any,
    /// Nodes of this kind alone.
    Exactly(Kind),
    Expression,
    Pattern,
    Statement,
    /// What an update writes.
    Target,
    /// What an assignment writes: a target, or one that destructures.
    Assigned,
    /// An expression, a spread or a hole.
    Element,
    PatternOrHole,
    /// A property of an object literal, or a spread.
    Property,
    /// What the body of a class holds.
    ClassElement,
    /// What a chain holds.
    Link,
    /// What a declaration declares: under `using`, names alone.
    Declarator,
}

/// Children of a set that follow one another.
#[derive(Clone, Copy)]
pub enum Item {
    One(Set),
    Maybe(Set),
    Many(Set),
    AtLeastOne(Set),
    /// One exactly if the flag is set.
    If(Flag, Set),
}

/// The rule of a node's text.
#[derive(Clone, Copy)]
pub enum TextRule {
    Empty,
    Name,
    Any,
    /// An f64, the high byte first, neither NaN nor with its sign set.
    Number,
    BigInt,
    /// Any text where there are no children, else none.
    Childless,
    /// A property name, unless two children say that the first is a key.
    KeyByCount,
    /// A property name, unless the flag is set.
    KeyByFlag(Flag),
}

/// The children of a node, in order. The items stand in it: a table of rows with a slice of items in each is more than Rattle's own compiler can build.
#[derive(Clone, Copy)]
pub enum Children {
    Leaf,
    Only(Item),
    Pair(Item, Item),
    Three(Item, Item, Item),
    /// The same, and two children at least.
    AtLeastTwo(Item, Item, Item),
}

/// What a node of a kind may be: how many details there are, the rule of its text, and its children.
#[derive(Clone, Copy)]
pub struct Row(pub u8, pub TextRule, pub Children);

/// The row of each kind, from kind 0 on, or `None` where there is no such kind.
static ROWS: [Option<Row>; 71] = [
    None,
    // 1 identifier
    Some(Row(1, TextRule::Name, Leaf)),
    // 2 null, boolean, regular expression, import.meta, new.target, super
    Some(Row(6, TextRule::Empty, Leaf)),
    // 3 number
    Some(Row(1, TextRule::Number, Leaf)),
    // 4 BigInt
    Some(Row(1, TextRule::BigInt, Leaf)),
    // 5 string
    Some(Row(1, TextRule::Any, Leaf)),
    // 6 template
    Some(Row(1, TextRule::Childless, Only(Many(Expression)))),
    // 7 unary
    Some(Row(7, TextRule::Empty, Only(One(Expression)))),
    // 8 update
    Some(Row(1, TextRule::Empty, Only(One(Target)))),
    // 9 binary
    Some(Row(22, TextRule::Empty, Pair(One(Expression), One(Expression)))),
    // 10 logical
    Some(Row(3, TextRule::Empty, Pair(One(Expression), One(Expression)))),
    // 11 assignment
    Some(Row(16, TextRule::Empty, Pair(One(Assigned), One(Expression)))),
    // 12 conditional
    Some(Row(
        1,
        TextRule::Empty,
        Three(One(Expression), One(Expression), One(Expression)),
    )),
    // 13 sequence
    Some(Row(1, TextRule::Empty, Only(AtLeastOne(Expression)))),
    // 14 parenthesized
    Some(Row(1, TextRule::Empty, Only(One(Expression)))),
    // 15 as, satisfies, assertion, non-null, instantiation
    Some(Row(5, TextRule::Empty, Only(One(Expression)))),
    // 16 array
    Some(Row(1, TextRule::Empty, Only(Many(Element)))),
    // 17 object
    Some(Row(1, TextRule::Empty, Only(Many(Property)))),
    // 18 static member
    Some(Row(1, TextRule::Name, Only(One(Expression)))),
    // 19 computed member
    Some(Row(1, TextRule::Empty, Pair(One(Expression), One(Expression)))),
    // 20 private member
    Some(Row(1, TextRule::Name, Only(One(Expression)))),
    // 21 #name in
    Some(Row(1, TextRule::Name, Only(One(Expression)))),
    // 22 chain
    Some(Row(1, TextRule::Empty, Only(One(Link)))),
    // 23 call, others
    Some(Row(2, TextRule::Empty, Only(Many(Any)))),
    // 24 function, arrow
    Some(Row(2, TextRule::Empty, Only(Many(Any)))),
    // 25 class expression
    Some(Row(
        2,
        TextRule::Empty,
        Pair(If(Flag::Superclass, Expression), Many(ClassElement)),
    )),
    None,
    None,
    None,
    None,
    // 30 spread
    Some(Row(1, TextRule::Empty, Only(One(Expression)))),
    // 31 hole
    Some(Row(1, TextRule::Empty, Leaf)),
    // 32 property: init, get, set
    Some(Row(
        3,
        TextRule::KeyByCount,
        Pair(Maybe(Expression), One(Expression)),
    )),
    // 33 object spread
    Some(Row(1, TextRule::Empty, Only(One(Expression)))),
    // 34 decorator
    Some(Row(1, TextRule::Empty, Only(One(Expression)))),
    // 35 method
    Some(Row(
        2,
        TextRule::KeyByFlag(Flag::MethodKey),
        Three(
            If(Flag::MethodKey, Expression),
            Many(Exactly(Kind::Decorator)),
            One(Exactly(Kind::Function)),
        ),
    )),
    // 36 field
    Some(Row(
        16,
        TextRule::KeyByFlag(Flag::FieldKey),
        Three(
            If(Flag::FieldKey, Expression),
            Many(Exactly(Kind::Decorator)),
            If(Flag::FieldValue, Expression),
        ),
    )),
    // 37 static block
    Some(Row(1, TextRule::Empty, Only(Many(Statement)))),
    // 38 destructuring target
    Some(Row(1, TextRule::Empty, Only(Many(Any)))),
    // 39 declarator
    Some(Row(1, TextRule::Empty, Pair(One(Pattern), Maybe(Expression)))),
    // 40 case
    Some(Row(
        2,
        TextRule::Empty,
        Pair(If(Flag::Test, Expression), Many(Statement)),
    )),
    // 41 catch
    Some(Row(
        1,
        TextRule::Empty,
        Pair(Maybe(Pattern), One(Exactly(Kind::BlockStatement))),
    )),
    // 42 binding identifier
    Some(Row(1, TextRule::Name, Leaf)),
    // 43 array pattern
    Some(Row(
        1,
        TextRule::Empty,
        Pair(
            Many(PatternOrHole),
            Maybe(Exactly(Kind::BindingRestElement)),
        ),
    )),
    // 44 object pattern
    Some(Row(
        1,
        TextRule::Empty,
        Pair(
            Many(Exactly(Kind::BindingProperty)),
            Maybe(Exactly(Kind::BindingRestElement)),
        ),
    )),
    // 45 default
    Some(Row(1, TextRule::Empty, Pair(One(Pattern), One(Expression)))),
    // 46 pattern property
    Some(Row(
        1,
        TextRule::KeyByCount,
        Pair(Maybe(Expression), One(Pattern)),
    )),
    // 47 rest
    Some(Row(1, TextRule::Empty, Only(One(Pattern)))),
    None,
    None,
    // 50 block
    Some(Row(1, TextRule::Empty, Only(Many(Statement)))),
    // 51 expression statement
    Some(Row(1, TextRule::Empty, Only(One(Expression)))),
    // 52 while, do
    Some(Row(2, TextRule::Empty, Pair(One(Expression), One(Statement)))),
    // 53 if
    Some(Row(
        1,
        TextRule::Empty,
        Three(One(Expression), One(Statement), Maybe(Statement)),
    )),
    // 54 label
    Some(Row(1, TextRule::Empty, Only(One(Statement)))),
    // 55 return
    Some(Row(1, TextRule::Empty, Only(Maybe(Expression)))),
    // 56 switch
    Some(Row(
        1,
        TextRule::Empty,
        Pair(One(Expression), Many(Exactly(Kind::SwitchCase))),
    )),
    // 57 try
    Some(Row(
        1,
        TextRule::Empty,
        AtLeastTwo(
            One(Exactly(Kind::BlockStatement)),
            Maybe(Exactly(Kind::CatchClause)),
            Maybe(Exactly(Kind::BlockStatement)),
        ),
    )),
    // 58 break, continue, empty
    Some(Row(1, TextRule::Empty, Leaf)),
    // 59 throw, loops, with, debugger, import, export
    Some(Row(1, TextRule::Empty, Only(Many(Any)))),
    // 60 variables: var, let, const, using, await using
    Some(Row(5, TextRule::Empty, Only(AtLeastOne(Declarator)))),
    // 61 function declaration
    Some(Row(1, TextRule::Empty, Only(Many(Any)))),
    // 62 class declaration
    Some(Row(
        2,
        TextRule::Empty,
        Pair(If(Flag::Superclass, Expression), Many(ClassElement)),
    )),
    None,
    None,
    None,
    None,
    None,
    None,
    None,
    // 70 TypeScript-only declaration
    Some(Row(1, TextRule::Empty, Leaf)),
];

/// The rows.
#[inline(always)]
fn rows() -> &'static [Option<Row>]
    ensures { map shape_in result.now ≡ rows }
{
    &ROWS
}

// It takes a number: by `Kind` each node that is checked would first be looked for among the kinds, and then among their rows.
/// The row of a kind, if there is such a kind.
#[inline(always)]
pub fn row_of(kind: u8) -> Option<Row>
    ensures { shape_in result ≡ row_of kind }
{
    rows().get(usize::from(kind)).copied().flatten()
}
