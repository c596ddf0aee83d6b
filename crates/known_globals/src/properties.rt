//! The known properties of global objects.

ghost use Rattle.std.specs.Prelude.{◌≡◌, map, codes};
ghost use Rattle.tables.specs.Order.{listed};
ghost use Rattle.known_globals.specs.Properties.{pure_math_methods, known_property, known_property_deep};

use crate::sets::among;

/// The known constants of `Math`.
const MATH_CONSTANTS: &[&str] = &[
    "E", "LN10", "LN2", "LOG10E", "LOG2E", "PI", "SQRT1_2", "SQRT2",
];

/// The known properties of `Number`.
const NUMBER: &[&str] = &[
    "POSITIVE_INFINITY",
    "NEGATIVE_INFINITY",
    "EPSILON",
    "NaN",
    "MAX_VALUE",
    "MIN_VALUE",
    "MAX_SAFE_INTEGER",
    "MIN_SAFE_INTEGER",
];

/// The known properties of `console`.
const CONSOLE: &[&str] = &[
    "assert",
    "clear",
    "count",
    "countReset",
    "debug",
    "dir",
    "dirxml",
    "error",
    "group",
    "groupCollapsed",
    "groupEnd",
    "info",
    "log",
    "table",
    "time",
    "timeEnd",
    "timeLog",
    "trace",
    "warn",
];

/// The known properties of `Object`.
const OBJECT: &[&str] = &[
    "assign",
    "create",
    "defineProperties",
    "defineProperty",
    "entries",
    "freeze",
    "fromEntries",
    "getOwnPropertyDescriptor",
    "getOwnPropertyDescriptors",
    "getOwnPropertyNames",
    "getOwnPropertySymbols",
    "getPrototypeOf",
    "is",
    "isExtensible",
    "isFrozen",
    "isSealed",
    "keys",
    "preventExtensions",
    "prototype",
    "seal",
    "setPrototypeOf",
    "values",
];

/// The known properties of `Reflect`.
const REFLECT: &[&str] = &[
    "apply",
    "construct",
    "defineProperty",
    "deleteProperty",
    "get",
    "getOwnPropertyDescriptor",
    "getPrototypeOf",
    "has",
    "isExtensible",
    "ownKeys",
    "preventExtensions",
    "set",
    "setPrototypeOf",
];

/// The known properties of `Symbol`.
const SYMBOL: &[&str] = &[
    "asyncDispose",
    "asyncIterator",
    "dispose",
    "hasInstance",
    "isConcatSpreadable",
    "iterator",
    "match",
    "matchAll",
    "replace",
    "search",
    "species",
    "split",
    "toPrimitive",
    "toStringTag",
    "unscopables",
];

/// The known properties of `JSON`.
const JSON: &[&str] = &["parse", "stringify"];

/// The known properties of `Object.prototype`.
const OBJECT_PROTOTYPE: &[&str] = &[
    "__defineGetter__",
    "__defineSetter__",
    "__lookupGetter__",
    "__lookupSetter__",
    "hasOwnProperty",
    "isPrototypeOf",
    "propertyIsEnumerable",
    "toLocaleString",
    "toString",
    "unwatch",
    "valueOf",
    "watch",
];

/// The methods of `Math` without side effects.
const MATH_METHODS: &[&str] = &[
    "abs", "acos", "acosh", "asin", "asinh", "atan", "atan2", "atanh", "cbrt", "ceil", "clz32",
    "cos", "cosh", "exp", "expm1", "floor", "fround", "hypot", "imul", "log", "log10", "log1p",
    "log2", "max", "min", "pow", "random", "round", "sign", "sin", "sinh", "sqrt", "tan", "tanh",
    "trunc",
];

/// Whether the property of the global object is read without side effects, as `Math.PI`, `console.log` and `Object.keys` are.
#[tactic(auto, unfolding(crate::specs::Properties::known_properties, crate::specs::Properties::math_constants))]
pub fn is_known_global_property(global: &str, property: &str) -> bool
    ensures { result ≡ known_property global.now property.now }
{
    match global {
        "Math" => among(property, MATH_CONSTANTS) || is_pure_math_method(property),
        "Number" => among(property, NUMBER),
        "console" => among(property, CONSOLE),
        "Object" => among(property, OBJECT),
        "Reflect" => among(property, REFLECT),
        "Symbol" => among(property, SYMBOL),
        "JSON" => among(property, JSON),
        _ => false,
    }
}

/// Whether the property two steps below the global object is read without side effects, as `Object.prototype.hasOwnProperty` is.
#[tactic(auto, unfolding(crate::specs::Properties::known_properties_deep, crate::specs::Properties::object_prototype))]
pub fn is_known_global_property_deep(global: &str, middle: &str, property: &str) -> bool
    ensures { result ≡ known_property_deep global.now middle.now property.now }
{
    global == "Object" && middle == "prototype" && among(property, OBJECT_PROTOTYPE)
}

/// Whether the method of `Math` has no side effects.
#[tactic(auto, unfolding(crate::specs::Properties::pure_math_methods))]
fn is_pure_math_method(method: &str) -> bool
    ensures { result ≡ listed (map codes pure_math_methods) method.now }
{
    among(method, MATH_METHODS)
}
