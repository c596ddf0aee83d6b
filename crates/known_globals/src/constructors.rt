//! The known global constructors.

ghost use Rattle.std.specs.Prelude.{◌≡◌};
ghost use Rattle.tables.specs.Order.{listed};
ghost use Rattle.known_globals.specs.Constructors.{known_constructors};

use crate::sets::among;

/// The known constructors.
const CONSTRUCTORS: &[&str] = &[
    "AggregateError",
    "Array",
    "ArrayBuffer",
    "BigInt",
    "BigInt64Array",
    "BigUint64Array",
    "Boolean",
    "DataView",
    "Date",
    "Error",
    "EvalError",
    "FinalizationRegistry",
    "Float32Array",
    "Float64Array",
    "Function",
    "Int8Array",
    "Int16Array",
    "Int32Array",
    "Iterator",
    "Map",
    "Number",
    "Object",
    "Promise",
    "Proxy",
    "RangeError",
    "ReferenceError",
    "RegExp",
    "Set",
    "SharedArrayBuffer",
    "String",
    "Symbol",
    "SyntaxError",
    "TypeError",
    "Uint8Array",
    "Uint8ClampedArray",
    "Uint16Array",
    "Uint32Array",
    "URIError",
    "WeakMap",
    "WeakSet",
];

/// Whether the name is that of a known global constructor, whether or not the target has it.
#[tactic(auto, unfolding(crate::specs::Constructors::known_constructors))]
pub fn is_known_global_constructor(name: &str) -> bool
    ensures { result ≡ listed known_constructors name.now }
{
    among(name, CONSTRUCTORS)
}
