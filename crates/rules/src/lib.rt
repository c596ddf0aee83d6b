//! The rules: what type an expression has, and whether a node has effects.

#![tactic(auto)]

mod detail;
mod kind;
mod to_numeric;
mod to_primitive;
