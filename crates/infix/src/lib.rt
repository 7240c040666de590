// Expressions of a sheet, printed where they stand in it (02, ticket 4): operators between their operands, parentheses only where the
// tree would otherwise change. Every printer takes the sheet's bytes s, a place in them, the end of the body in which the expression
// stands, a lent buffer and the place in it from which to write. What is written of what does not read is left free.
#![tactic(auto)]

mod body; // what each step has at hand
mod leaves; // constants and registers
mod marks; // parentheses, and what stands between two operands
mod arithmetic; // operations
mod conditions; // comparisons, `!` and `&&`

pub use arithmetic::print_arith;
pub use conditions::print_condition;
pub use leaves::put_value;

// How strongly an expression must bind where any may stand.
pub const ANY_ARITH: usize = 1;

pub const ANY_CONDITION: usize = 1;

// The place behind an expression in the sheet, and the place behind its text in the buffer.
#[derive(Clone, Copy)]
pub struct Walked {
    pub next: usize,
    pub at: usize,
}
