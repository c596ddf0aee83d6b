//! What the detail of a kind says: operators and the like.

ghost use Rattle.std.specs.Prelude.{◌≡◌, List, slice_get};
ghost use Rattle.rules.specs.Details.{unary_operators, binary_operators, logical_operators, assignment_operators, wrappers, property_kinds, declaration_kinds, flags, modifiers_of};

/// What a detail says: one of a few values.
pub(crate) trait Detail: Copy + 'static {
    ghost values: { List Self };

    /// The values in the order of their numbers in the format, from 0 on.
    fn all() -> &'static [Self]
        ensures { result.now ≡ values };
}

// No `TryFrom` for each of them: its error would be one type more, and `Kind` makes its own of a `None`.
/// The value of this number among those listed, from 0 on.
pub(crate) fn nth<T: Copy>(number: u8, values: &[T]) -> Option<T>
    ensures { result ≡ slice_get values.now number }
{
    values.get(usize::from(number)).copied()
}

/// The detail of this number.
pub(crate) fn of_number<T: Detail>(number: u8) -> Option<T>
    ensures { result ≡ slice_get T.values number }
{
    nth(number, T::all())
}

/// The operator of a unary operation.
#[derive(Clone, Copy, PartialEq, Eq, Debug)]
pub enum UnaryOperator {
    UnaryNegation,
    UnaryPlus,
    LogicalNot,
    BitwiseNot,
    Typeof,
    Void,
    Delete,
}

impl Detail for UnaryOperator {
    ghost values = { unary_operators };

    fn all() -> &'static [Self] {
        &[
            UnaryOperator::UnaryNegation,
            UnaryOperator::UnaryPlus,
            UnaryOperator::LogicalNot,
            UnaryOperator::BitwiseNot,
            UnaryOperator::Typeof,
            UnaryOperator::Void,
            UnaryOperator::Delete,
        ]
    }
}

/// The operator of a binary operation.
#[derive(Clone, Copy, PartialEq, Eq, Debug)]
pub enum BinaryOperator {
    Equality,
    Inequality,
    StrictEquality,
    StrictInequality,
    LessThan,
    LessEqualThan,
    GreaterThan,
    GreaterEqualThan,
    Addition,
    Subtraction,
    Multiplication,
    Division,
    Remainder,
    Exponential,
    ShiftLeft,
    ShiftRight,
    ShiftRightZeroFill,
    BitwiseOR,
    BitwiseXOR,
    BitwiseAnd,
    In,
    Instanceof,
}

impl Detail for BinaryOperator {
    ghost values = { binary_operators };

    fn all() -> &'static [Self] {
        &[
            BinaryOperator::Equality,
            BinaryOperator::Inequality,
            BinaryOperator::StrictEquality,
            BinaryOperator::StrictInequality,
            BinaryOperator::LessThan,
            BinaryOperator::LessEqualThan,
            BinaryOperator::GreaterThan,
            BinaryOperator::GreaterEqualThan,
            BinaryOperator::Addition,
            BinaryOperator::Subtraction,
            BinaryOperator::Multiplication,
            BinaryOperator::Division,
            BinaryOperator::Remainder,
            BinaryOperator::Exponential,
            BinaryOperator::ShiftLeft,
            BinaryOperator::ShiftRight,
            BinaryOperator::ShiftRightZeroFill,
            BinaryOperator::BitwiseOR,
            BinaryOperator::BitwiseXOR,
            BinaryOperator::BitwiseAnd,
            BinaryOperator::In,
            BinaryOperator::Instanceof,
        ]
    }
}

/// The operator of a logical operation.
#[derive(Clone, Copy, PartialEq, Eq, Debug)]
pub enum LogicalOperator {
    And,
    Or,
    Coalesce,
}

impl Detail for LogicalOperator {
    ghost values = { logical_operators };

    fn all() -> &'static [Self] {
        &[
            LogicalOperator::And,
            LogicalOperator::Or,
            LogicalOperator::Coalesce,
        ]
    }
}

/// The operator of an assignment.
#[derive(Clone, Copy, PartialEq, Eq, Debug)]
pub enum AssignmentOperator {
    Assign,
    Addition,
    Subtraction,
    Multiplication,
    Division,
    Remainder,
    Exponential,
    ShiftLeft,
    ShiftRight,
    ShiftRightZeroFill,
    BitwiseOR,
    BitwiseXOR,
    BitwiseAnd,
    LogicalAnd,
    LogicalOr,
    LogicalNullish,
}

impl Detail for AssignmentOperator {
    ghost values = { assignment_operators };

    fn all() -> &'static [Self] {
        &[
            AssignmentOperator::Assign,
            AssignmentOperator::Addition,
            AssignmentOperator::Subtraction,
            AssignmentOperator::Multiplication,
            AssignmentOperator::Division,
            AssignmentOperator::Remainder,
            AssignmentOperator::Exponential,
            AssignmentOperator::ShiftLeft,
            AssignmentOperator::ShiftRight,
            AssignmentOperator::ShiftRightZeroFill,
            AssignmentOperator::BitwiseOR,
            AssignmentOperator::BitwiseXOR,
            AssignmentOperator::BitwiseAnd,
            AssignmentOperator::LogicalAnd,
            AssignmentOperator::LogicalOr,
            AssignmentOperator::LogicalNullish,
        ]
    }
}

/// What TypeScript writes around an expression.
#[derive(Clone, Copy, PartialEq, Eq, Debug)]
pub enum TypeScriptWrapper {
    As,
    Satisfies,
    TypeAssertion,
    NonNull,
    Instantiation,
}

impl Detail for TypeScriptWrapper {
    ghost values = { wrappers };

    fn all() -> &'static [Self] {
        &[
            TypeScriptWrapper::As,
            TypeScriptWrapper::Satisfies,
            TypeScriptWrapper::TypeAssertion,
            TypeScriptWrapper::NonNull,
            TypeScriptWrapper::Instantiation,
        ]
    }
}

/// What a property of an object literal is.
#[derive(Clone, Copy, PartialEq, Eq, Debug)]
pub enum PropertyKind {
    Init,
    Get,
    Set,
}

impl Detail for PropertyKind {
    ghost values = { property_kinds };

    fn all() -> &'static [Self] {
        &[PropertyKind::Init, PropertyKind::Get, PropertyKind::Set]
    }
}

/// How variables are declared.
#[derive(Clone, Copy, PartialEq, Eq, Debug)]
pub enum VariableDeclarationKind {
    Var,
    Let,
    Const,
    Using,
    AwaitUsing,
}

impl Detail for VariableDeclarationKind {
    ghost values = { declaration_kinds };

    fn all() -> &'static [Self] {
        &[
            VariableDeclarationKind::Var,
            VariableDeclarationKind::Let,
            VariableDeclarationKind::Const,
            VariableDeclarationKind::Using,
            VariableDeclarationKind::AwaitUsing,
        ]
    }
}

/// Whether the node has what a node of its kind may lack.
impl Detail for bool {
    ghost values = { flags };

    fn all() -> &'static [Self] {
        &[false, true]
    }
}

/// What a field of a class has.
#[derive(Clone, Copy, PartialEq, Eq, Debug)]
pub struct Modifiers {
    pub is_static: bool,
    pub is_accessor: bool,
    pub has_key: bool,
    pub has_value: bool,
}

impl Modifiers {
    // An Option like the other details: an error would say no more than `None` does.
    /// The ones that this number in the format is the sum of: 1 if the field is static, 2 for an accessor, 4 with a key child, 8 with a value child.
    pub(crate) fn of_number(number: u8) -> Option<Modifiers>
        ensures { result ≡ modifiers_of number }
    {
        (number < 16).then_some(Modifiers {
            is_static: number & 1 != 0,
            is_accessor: number & 2 != 0,
            has_key: number & 4 != 0,
            has_value: number & 8 != 0,
        })
    }
}
