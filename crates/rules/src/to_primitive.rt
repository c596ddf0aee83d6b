//! `ToPrimitive`: <https://tc39.es/ecma262/#sec-toprimitive>

ghost use Rattle.std.specs.Prelude.{◌≡◌};
ghost use Rattle.rules.specs.Primitives.{if_known, outcome_of, surely, is_string, is_symbol, is_symbol_or_big_int, refuses};

/// The type of a value after ToPrimitive, as far as it is known.
#[derive(Clone, Copy, PartialEq, Eq, Debug)]
pub enum ToPrimitiveResult {
    Undefined,
    Null,
    Number,
    BigInt,
    String,
    Boolean,
    Symbol,
    Undetermined,
}

/// A conversion of a primitive value.
#[derive(Clone, Copy, PartialEq, Eq, Debug)]
pub enum Conversion {
    ToString,
    ToNumeric,
    ToNumber,
}

impl ToPrimitiveResult {
    /// The answer about its type, if that is known.
    fn if_known(self, answer: bool) -> Option<bool>
        ensures { result ≡ if_known self answer }
    {
        (self != ToPrimitiveResult::Undetermined).then_some(answer)
    }

    /// Whether it is a String, if that is known.
    pub(crate) fn is_string(self) -> Option<bool>
        ensures { result ≡ surely is_string self }
    {
        self.if_known(self == ToPrimitiveResult::String)
    }

    /// Whether it is a Symbol, if that is known.
    pub(crate) fn is_symbol(self) -> Option<bool>
        ensures { result ≡ surely is_symbol self }
    {
        self.if_known(self == ToPrimitiveResult::Symbol)
    }

    /// Whether it is a Symbol or a BigInt, if that is known.
    pub(crate) fn is_symbol_or_bigint(self) -> Option<bool>
        ensures { result ≡ surely is_symbol_or_big_int self }
    {
        self.if_known(matches!(self, ToPrimitiveResult::Symbol | ToPrimitiveResult::BigInt))
    }

    /// Whether the conversion of it may throw.
    pub(crate) fn may_refuse(self, conversion: Conversion) -> bool
        ensures { result ≡ refuses (outcome_of conversion) self }
    {
        let throws = match conversion {
            Conversion::ToString | Conversion::ToNumeric => self.is_symbol(),
            Conversion::ToNumber => self.is_symbol_or_bigint(),
        };
        throws != Some(false)
    }
}
