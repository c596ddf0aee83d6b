//! The lists of known globals.

use known_globals::{
    is_known_global_constructor, is_known_global_identifier, is_known_global_property,
    is_known_global_property_deep,
};
use std::process::Abort;

#[test]
fn identifiers(rt: HostRuntime) {
    // the first, the last and some between; names that begin other names, and names in two cases
    let known = [
        "AbortController",
        "AbortSignal",
        "SVGFEBlendElement",
        "webkitURL",
        "window",
        "Array",
        "JSON",
        "Math",
        "Object",
        "URIError",
        "console",
        "globalThis",
        "isNaN",
        "close",
        "closed",
        "screen",
        "screenX",
        "Document",
        "document",
    ];
    for name in known {
        assert!(rt; is_known_global_identifier(name), "{}", name);
    }
    // special cases of their own, a byte less or more, another case, and names that stand nowhere
    let unknown = [
        "NaN",
        "Infinity",
        "undefined",
        "",
        "AbortControlle",
        "AbortControllerr",
        "bortController",
        "windo",
        "windows",
        "SVGFEBlendElemen",
        "SVGFEBlendElements",
        "abortController",
        "WINDOW",
        "math",
        "A",
        "a",
        "zoo",
        "Ändern",
        "Math.PI",
        "AbortControllerAbortSignal",
    ];
    for name in unknown {
        assert!(rt; !is_known_global_identifier(name), "{}", name);
    }
}

#[test]
fn constructors(rt: HostRuntime) {
    let known = [
        "AggregateError",
        "Array",
        "ArrayBuffer",
        "Int8Array",
        "Map",
        "Object",
        "URIError",
        "WeakSet",
    ];
    for name in known {
        assert!(rt; is_known_global_constructor(name), "{}", name);
    }
    let unknown = [
        "",
        "undefined",
        "NaN",
        "AggregateErro",
        "AggregateErrors",
        "WeakSe",
        "WeakSets",
        "weakSet",
        "array",
        "Math",
        "Window",
        "window",
    ];
    for name in unknown {
        assert!(rt; !is_known_global_constructor(name), "{}", name);
    }
}

/// Checks that all of these properties of a global object are known, or that none is.
fn check_properties(rt: &impl Abort, global: &str, properties: &[&str], is_known: bool) {
    for property in properties {
        let found = is_known_global_property(global, property);
        assert_eq!(rt; found, is_known, "{global}.{property}");
    }
}

#[test]
fn known_properties(rt: HostRuntime) {
    // the first, the last and some between
    let math = ["E", "PI", "SQRT2", "abs", "max", "trunc"];
    check_properties(&rt, "Math", &math, true);
    let number = ["POSITIVE_INFINITY", "NaN", "MIN_SAFE_INTEGER"];
    check_properties(&rt, "Number", &number, true);
    check_properties(&rt, "console", &["assert", "log", "warn"], true);
    let object = ["assign", "is", "keys", "prototype", "values"];
    check_properties(&rt, "Object", &object, true);
    let reflect = ["apply", "get", "setPrototypeOf"];
    check_properties(&rt, "Reflect", &reflect, true);
    let symbol = ["asyncDispose", "iterator", "unscopables"];
    check_properties(&rt, "Symbol", &symbol, true);
    check_properties(&rt, "JSON", &["parse", "stringify"], true);
}

#[test]
fn unknown_properties(rt: HostRuntime) {
    // no name, a byte less or more, another case, properties of other objects
    let math = ["", "foo", "P", "PIE", "pi", "MAX", "keys", "Math"];
    check_properties(&rt, "Math", &math, false);
    check_properties(&rt, "Number", &["", "nan", "PI"], false);
    check_properties(&rt, "console", &["", "logs", "parse"], false);
    // what is known of the prototype alone
    let object = ["", "key", "iterator", "toString"];
    check_properties(&rt, "Object", &object, false);
    check_properties(&rt, "Reflect", &["", "keys"], false);
    check_properties(&rt, "Symbol", &["", "get"], false);
    check_properties(&rt, "JSON", &["", "log"], false);
    // no such object, or one without known properties
    for global in ["", "Foo", "PI", "math", "Mat", "Maths", "Array"] {
        check_properties(&rt, global, &["", "PI", "NaN", "prototype"], false);
    }
}

/// Checks that all of these properties, two steps below a global object, are known, or that none is.
fn check_deep(rt: &impl Abort, global: &str, middle: &str, properties: &[&str], is_known: bool) {
    for property in properties {
        let found = is_known_global_property_deep(global, middle, property);
        assert_eq!(rt; found, is_known, "{global}.{middle}.{property}");
    }
}

#[test]
fn properties_of_the_prototype(rt: HostRuntime) {
    let known = ["__defineGetter__", "hasOwnProperty", "toString", "watch"];
    check_deep(&rt, "Object", "prototype", &known, true);
    let unknown = ["", "foo", "tostring", "toStrin", "toStrings", "keys"];
    check_deep(&rt, "Object", "prototype", &unknown, false);
    for middle in ["", "foo", "Prototype", "prototypes", "Object"] {
        check_deep(&rt, "Object", middle, &known, false);
    }
    for global in ["", "Math", "object", "Objects", "prototype"] {
        check_deep(&rt, global, "prototype", &known, false);
    }
}
