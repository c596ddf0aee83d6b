//! `ToNumeric`: <https://tc39.es/ecma262/#sec-tonumeric>

ghost use Rattle.std.specs.Prelude.{◌≡◌};
ghost use Rattle.rules.specs.Primitives.{numeric_class};

use super::to_primitive::ToPrimitiveResult;

/// What ToNumeric of a value gives, as far as it is known.
#[derive(Clone, Copy, PartialEq, Eq, Debug)]
pub enum ToNumericResult {
    Number,
    BigInt,
    Undetermined,
}

impl ToPrimitiveResult {
    /// What ToNumeric gives of it: Undetermined where it may throw.
    pub(crate) fn to_numeric(self) -> ToNumericResult
        ensures { result ≡ numeric_class self }
    {
        match self {
            ToPrimitiveResult::Symbol | ToPrimitiveResult::Undetermined =>
                ToNumericResult::Undetermined,
            ToPrimitiveResult::BigInt => ToNumericResult::BigInt,
            ToPrimitiveResult::Boolean
            | ToPrimitiveResult::Null
            | ToPrimitiveResult::Number
            | ToPrimitiveResult::String
            | ToPrimitiveResult::Undefined => ToNumericResult::Number,
        }
    }
}
