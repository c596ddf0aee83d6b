//! The kinds of nodes.

/// A kind of node, with its number in the format.
#[derive(Clone, Copy, Debug, PartialEq, Eq)]
pub enum Kind {
    Identifier = 1,
    /// `null`, a boolean, a regular expression, `import.meta`, `new.target` or `super`.
    Constant = 2,
    NumericLiteral = 3,
    BigIntLiteral = 4,
    StringLiteral = 5,
    TemplateLiteral = 6,
    UnaryExpression = 7,
    UpdateExpression = 8,
    BinaryExpression = 9,
    LogicalExpression = 10,
    AssignmentExpression = 11,
    ConditionalExpression = 12,
    SequenceExpression = 13,
    ParenthesizedExpression = 14,
    /// `as`, `satisfies`, an assertion, `!` or an instantiation.
    TypeScriptExpression = 15,
    ArrayExpression = 16,
    ObjectExpression = 17,
    StaticMemberExpression = 18,
    ComputedMemberExpression = 19,
    PrivateFieldExpression = 20,
    PrivateInExpression = 21,
    ChainExpression = 22,
    /// A call, or what acts as one.
    CallExpression = 23,
    /// A function or an arrow function.
    Function = 24,
    ClassExpression = 25,
    SpreadElement = 30,
    /// A hole in an array.
    Elision = 31,
    ObjectProperty = 32,
    SpreadProperty = 33,
    Decorator = 34,
    MethodDefinition = 35,
    PropertyDefinition = 36,
    StaticBlock = 37,
    AssignmentTargetPattern = 38,
    VariableDeclarator = 39,
    SwitchCase = 40,
    CatchClause = 41,
    BindingIdentifier = 42,
    ArrayPattern = 43,
    ObjectPattern = 44,
    AssignmentPattern = 45,
    /// A property of an object pattern.
    BindingProperty = 46,
    BindingRestElement = 47,
    BlockStatement = 50,
    ExpressionStatement = 51,
    /// `while` or `do`.
    WhileStatement = 52,
    IfStatement = 53,
    LabeledStatement = 54,
    ReturnStatement = 55,
    SwitchStatement = 56,
    TryStatement = 57,
    /// `break`, `continue` or an empty statement.
    EmptyStatement = 58,
    /// `throw`, another loop, `with`, `debugger`, an import or an export.
    ActingStatement = 59,
    VariableDeclaration = 60,
    FunctionDeclaration = 61,
    ClassDeclaration = 62,
    /// A declaration that only TypeScript has.
    TypeScriptDeclaration = 70,
}

impl From<Kind> for u8 {
    ghost use Rattle.std.specs.Prelude.{◌≡◌};
    ghost use Rattle.drafts.specs.Kinds.{number_of};

    ghost from_gives = { λ kind number. number ≡ number_of kind };

    fn from(kind: Kind) -> u8 {
        kind as u8
    }
}
