//! The kinds of nodes, as a syntax tree has them.

ghost use Rattle.std.specs.Prelude.{◌≡◌};
ghost use Rattle.rules.specs.Kinds.{primary_of, operation_of, compound_of, part_of, statement_of, Decodes};

use super::detail::{
    AssignmentOperator, BinaryOperator, LogicalOperator, Modifiers, PropertyKind,
    TypeScriptWrapper, UnaryOperator, VariableDeclarationKind, nth, of_number,
};

/// What a node is: its kind, and what its detail says.
#[derive(Clone, Copy, PartialEq, Eq, Debug)]
pub enum Kind {
    Identifier,
    NullLiteral,
    BooleanLiteral,
    RegExpLiteral,
    ImportMeta,
    NewTarget,
    Super,
    NumericLiteral,
    BigIntLiteral,
    StringLiteral,
    TemplateLiteral,
    UnaryExpression(UnaryOperator),
    UpdateExpression,
    BinaryExpression(BinaryOperator),
    LogicalExpression(LogicalOperator),
    AssignmentExpression(AssignmentOperator),
    ConditionalExpression,
    SequenceExpression,
    ParenthesizedExpression,
    TypeScriptExpression(TypeScriptWrapper),
    ArrayExpression,
    ObjectExpression,
    StaticMemberExpression,
    ComputedMemberExpression,
    PrivateFieldExpression,
    PrivateInExpression,
    ChainExpression,
    CallExpression,
    /// `new`, a tagged template, `await`, `yield` or `import()`.
    CallLike,
    FunctionExpression,
    ArrowFunctionExpression,
    /// With a superclass or not.
    ClassExpression(bool),
    SpreadElement,
    /// A hole in an array.
    Elision,
    ObjectProperty(PropertyKind),
    SpreadProperty,
    Decorator,
    /// With a key child or not.
    MethodDefinition(bool),
    PropertyDefinition(Modifiers),
    StaticBlock,
    AssignmentTargetPattern,
    VariableDeclarator,
    /// With a test, or `default`.
    SwitchCase(bool),
    CatchClause,
    BindingIdentifier,
    ArrayPattern,
    ObjectPattern,
    AssignmentPattern,
    /// A property of an object pattern.
    BindingProperty,
    BindingRestElement,
    BlockStatement,
    ExpressionStatement,
    WhileStatement,
    DoWhileStatement,
    IfStatement,
    LabeledStatement,
    ReturnStatement,
    SwitchStatement,
    TryStatement,
    /// `break`, `continue` or an empty statement.
    EmptyStatement,
    /// `throw`, `for`, `for-in`, `for-of`, `with`, `debugger`, an import or an export.
    ActingStatement,
    VariableDeclaration(VariableDeclarationKind),
    FunctionDeclaration,
    /// With a superclass or not.
    ClassDeclaration(bool),
}

// Here the numbers of the format become kinds. By an enum of the bare kinds each arm would name its kind twice, as `Identifier => nth(detail, &[Kind::Identifier])`.
impl Kind {
    /// A name or a literal.
    fn primary(kind: u8, detail: u8) -> Option<Kind>
        ensures { result ≡ primary_of kind detail }
    {
        match kind {
            1 => nth(detail, &[Kind::Identifier]),
            2 => nth(
                detail,
                &[
                    Kind::NullLiteral,
                    Kind::BooleanLiteral,
                    Kind::RegExpLiteral,
                    Kind::ImportMeta,
                    Kind::NewTarget,
                    Kind::Super,
                ],
            ),
            3 => nth(detail, &[Kind::NumericLiteral]),
            4 => nth(detail, &[Kind::BigIntLiteral]),
            5 => nth(detail, &[Kind::StringLiteral]),
            6 => nth(detail, &[Kind::TemplateLiteral]),
            _ => None,
        }
    }

    /// An operation, a sequence, or what stands around an expression.
    fn operation(kind: u8, detail: u8) -> Option<Kind>
        ensures { result ≡ operation_of kind detail }
    {
        match kind {
            7 => of_number(detail).map(Kind::UnaryExpression),
            8 => nth(detail, &[Kind::UpdateExpression]),
            9 => of_number(detail).map(Kind::BinaryExpression),
            10 => of_number(detail).map(Kind::LogicalExpression),
            11 => of_number(detail).map(Kind::AssignmentExpression),
            12 => nth(detail, &[Kind::ConditionalExpression]),
            13 => nth(detail, &[Kind::SequenceExpression]),
            14 => nth(detail, &[Kind::ParenthesizedExpression]),
            15 => of_number(detail).map(Kind::TypeScriptExpression),
            _ => None,
        }
    }

    /// Any other expression.
    fn compound(kind: u8, detail: u8) -> Option<Kind>
        ensures { result ≡ compound_of kind detail }
    {
        match kind {
            16 => nth(detail, &[Kind::ArrayExpression]),
            17 => nth(detail, &[Kind::ObjectExpression]),
            18 => nth(detail, &[Kind::StaticMemberExpression]),
            19 => nth(detail, &[Kind::ComputedMemberExpression]),
            20 => nth(detail, &[Kind::PrivateFieldExpression]),
            21 => nth(detail, &[Kind::PrivateInExpression]),
            22 => nth(detail, &[Kind::ChainExpression]),
            23 => nth(detail, &[Kind::CallExpression, Kind::CallLike]),
            24 => nth(
                detail,
                &[Kind::FunctionExpression, Kind::ArrowFunctionExpression],
            ),
            25 => of_number(detail).map(Kind::ClassExpression),
            _ => None,
        }
    }

    /// What is part of an expression or of a statement.
    fn part(kind: u8, detail: u8) -> Option<Kind>
        ensures { result ≡ part_of kind detail }
    {
        match kind {
            30 => nth(detail, &[Kind::SpreadElement]),
            31 => nth(detail, &[Kind::Elision]),
            32 => of_number(detail).map(Kind::ObjectProperty),
            33 => nth(detail, &[Kind::SpreadProperty]),
            34 => nth(detail, &[Kind::Decorator]),
            35 => of_number(detail).map(Kind::MethodDefinition),
            36 => Modifiers::of_number(detail).map(Kind::PropertyDefinition),
            37 => nth(detail, &[Kind::StaticBlock]),
            38 => nth(detail, &[Kind::AssignmentTargetPattern]),
            39 => nth(detail, &[Kind::VariableDeclarator]),
            40 => of_number(detail).map(Kind::SwitchCase),
            41 => nth(detail, &[Kind::CatchClause]),
            42 => nth(detail, &[Kind::BindingIdentifier]),
            43 => nth(detail, &[Kind::ArrayPattern]),
            44 => nth(detail, &[Kind::ObjectPattern]),
            45 => nth(detail, &[Kind::AssignmentPattern]),
            46 => nth(detail, &[Kind::BindingProperty]),
            47 => nth(detail, &[Kind::BindingRestElement]),
            _ => None,
        }
    }

    /// A statement.
    fn statement(kind: u8, detail: u8) -> Option<Kind>
        ensures { result ≡ statement_of kind detail }
    {
        match kind {
            50 => nth(detail, &[Kind::BlockStatement]),
            51 => nth(detail, &[Kind::ExpressionStatement]),
            52 => nth(detail, &[Kind::WhileStatement, Kind::DoWhileStatement]),
            53 => nth(detail, &[Kind::IfStatement]),
            54 => nth(detail, &[Kind::LabeledStatement]),
            55 => nth(detail, &[Kind::ReturnStatement]),
            56 => nth(detail, &[Kind::SwitchStatement]),
            57 => nth(detail, &[Kind::TryStatement]),
            58 => nth(detail, &[Kind::EmptyStatement]),
            59 => nth(detail, &[Kind::ActingStatement]),
            60 => of_number(detail).map(Kind::VariableDeclaration),
            61 => nth(detail, &[Kind::FunctionDeclaration]),
            62 => of_number(detail).map(Kind::ClassDeclaration),
            _ => None,
        }
    }
}

/// Two numbers that no kind has.
#[derive(Clone, Copy, PartialEq, Eq, Debug)]
pub struct UnknownKind {
    pub kind: u8,
    pub detail: u8,
}

/// The kind of these two bytes in the format: that of the kind, and that of its detail.
impl TryFrom<(u8, u8)> for Kind {
    type Error = UnknownKind;

    ghost try_from_gives = { Decodes };

    fn try_from((kind, detail): (u8, u8)) -> Result<Kind, UnknownKind> {
        let found = match kind {
            ..=6 => Kind::primary(kind, detail),
            ..=15 => Kind::operation(kind, detail),
            ..=25 => Kind::compound(kind, detail),
            ..=49 => Kind::part(kind, detail),
            _ => Kind::statement(kind, detail),
        };
        found.ok_or(UnknownKind { kind, detail })
    }
}
