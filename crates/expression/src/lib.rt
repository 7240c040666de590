// Expressions and conditions, read, evaluated and narrowed where they stand in the sheet: no tree is built and no byte is
// copied. Every function takes the sheet's bytes s, a place in them, and the end of the body in which the expression stands.
#![tactic(auto)]

mod walk; // what each step of a walk has at hand
mod number; // unsigned and signed numbers of the sheet
pub mod kind; // what the code at a place says
pub mod reading; // the place behind an expression, or the refusal
mod evaluation; // the interval of an expression, or its fault
mod parts; // the first fault of all parts of a condition, or none
mod comparison; // registers narrowed by a comparison
mod narrowing; // registers narrowed by a condition, yes and no
pub mod whole; // what an assignment and a branch ask

pub use number::{int32_at, num16_at, num32_at};
pub use reading::{read_arith, read_condition};
pub use whole::{Branch, DEEPEST, assigned_value, branch_on};
