// Reading: the place behind an expression, or the first refusal from the left. The functions on expressions and conditions call
// themselves on each operand, and the depth that is left falls.
ghost use Rattle.std.specs.Prelude.{◌≡◌, ◌^◌, ◌≤◌, ◌<◌, length};
ghost use Rattle.rules.specs.Program.{Arith, Condition};
ghost use Rattle.rules.specs.Format.{Bytes, read_constant, read_register, read_arith, read_condition};
ghost use Rattle.expression.specs.Reading.{parsed_of, pair_at};

use crate::kind::{ArithKind, ConditionKind, arith_at, condition_at};
use refusal::Refusal;

// A constant's four bytes, at p.
#[tactic(auto, unfolding(rules::specs::Format::read_constant, rules::specs::Format::need))]
fn read_constant(p: usize, end: usize) -> Result<usize, Refusal>
    requires { (p ≤ end) × (end < 2 ^ 63) }
    ensures { (s : Bytes) → result ≡ parsed_of (read_constant s end p) }
{
    if end < p + 4 {
        return Err(Refusal::BadExpression);
    }
    Ok(p + 4)
}

// A register's number, at p: one of n registers.
#[tactic(auto, unfolding(rules::specs::Format::read_register, rules::specs::Format::need))]
fn read_register(s: &[u8], p: usize, end: usize, n: usize) -> Result<usize, Refusal>
    requires { (p ≤ end) × (end ≤ length s.now) }
    ensures { result ≡ parsed_of (read_register s.now end n p) }
{
    if end < p + 1 {
        return Err(Refusal::BadExpression);
    }
    if n <= usize::from(s[p]) {
        return Err(Refusal::NoSuchName);
    }
    Ok(p + 1)
}

#[tactic(auto, using(crate::proofs::reading::Laws::arith_ends, crate::proofs::reading::Laws::arith_refused))]
pub fn read_arith(s: &[u8], at: usize, end: usize, n: usize, depth: usize) -> Result<usize, Refusal>
    requires { end ≤ length s.now }
    ensures { result ≡ parsed_of (read_arith depth s.now end n at) }
{
    if depth == 0 {
        return Err(Refusal::BadExpression);
    }
    match arith_at(s, at, end).ok_or(Refusal::BadExpression)? {
        ArithKind::Constant => read_constant(at + 1, end),
        ArithKind::Register => read_register(s, at + 1, end, n),
        ArithKind::Operation(_) => {
            let q = read_arith(s, at + 1, end, n, depth - 1)?;
            read_arith(s, q, end, n, depth - 1)
        }
    }
}

// The two sides of a comparison, whichever it is.
#[tactic(auto, unfolding(rules::specs::Format::and_then))]
fn read_pair(s: &[u8], at: usize, end: usize, n: usize, depth: usize) -> Result<usize, Refusal>
    requires { end ≤ length s.now }
    ensures { (f : Arith → Arith → Condition) → result ≡ parsed_of (pair_at depth s.now end n at f) }
{
    let q = read_arith(s, at, end, n, depth)?;
    read_arith(s, q, end, n, depth)
}

#[tactic(auto, using(crate::proofs::reading::Laws::condition_ends, crate::proofs::reading::Laws::condition_refused))]
pub fn read_condition(
    s: &[u8],
    at: usize,
    end: usize,
    n: usize,
    depth: usize,
) -> Result<usize, Refusal>
    requires { end ≤ length s.now }
    ensures { result ≡ parsed_of (read_condition depth s.now end n at) }
{
    if depth == 0 {
        return Err(Refusal::BadExpression);
    }
    match condition_at(s, at, end).ok_or(Refusal::BadExpression)? {
        ConditionKind::Always | ConditionKind::Never => Ok(at + 1),
        ConditionKind::Negation => read_condition(s, at + 1, end, n, depth - 1),
        ConditionKind::Conjunction => {
            let q = read_condition(s, at + 1, end, n, depth - 1)?;
            read_condition(s, q, end, n, depth - 1)
        }
        ConditionKind::Comparison(_) => read_pair(s, at + 1, end, n, depth - 1),
    }
}
