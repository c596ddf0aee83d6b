//! The types of values that a scope record can name.

ghost use Rattle.std.specs.Prelude.{◌≡◌};
ghost use Rattle.std.specs.Option.{ok_or};
ghost use Rattle.packed.specs.declared.refusal.Reason.TheVariants.{BadScope};
ghost use Rattle.packed.specs.ValueTypes.{type_of};

use super::refusal::Reason;

/// The type of an expression's value, as far as it is known.
#[derive(Clone, Copy, Debug, PartialEq, Eq)]
pub enum ValueType {
    Undefined = 1,
    Null = 2,
    Number = 3,
    BigInt = 4,
    String = 5,
    Boolean = 6,
    Object = 7,
    Undetermined = 8,
}

impl TryFrom<u8> for ValueType {
    type Error = Reason;

    ghost try_from_gives = { λ n r. r ≡ ok_or (type_of n) BadScope };

    fn try_from(number: u8) -> Result<ValueType, Reason> {
        match number {
            1 => Ok(ValueType::Undefined),
            2 => Ok(ValueType::Null),
            3 => Ok(ValueType::Number),
            4 => Ok(ValueType::BigInt),
            5 => Ok(ValueType::String),
            6 => Ok(ValueType::Boolean),
            7 => Ok(ValueType::Object),
            8 => Ok(ValueType::Undetermined),
            _ => Err(Reason::BadScope),
        }
    }
}
