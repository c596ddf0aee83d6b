//! The rules of a node's text: UTF-8, number literals and BigInt literals.

#![tactic(auto)]

mod big_int;
mod number;
mod strings;
mod to_integer_index;
mod utf8;

pub use big_int::is_big_int;
pub use number::number_literal;
pub use strings::{iteration_steps, string_length};
pub use to_integer_index::{big_int_index, number_index};
pub use utf8::is_utf8;
