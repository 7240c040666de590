// Expressions of a text (02, ticket 2): read from left to right, written operator first. Every reader takes the text s, a place p
// in it, the output and the place in it from which the expression is written. The place is in the text, and the output is shorter
// than 65,536 bytes. Each gives the place behind the expression and the end of its bytes, which stand in the output where all its
// numbers fit and there is room for them; otherwise nothing is said of the output. Its kind is whether it is a condition. Its error is
// the place of the first byte that cannot go on.
#![tactic(auto)]

mod signs; // what joins two operands
mod closing; // what ends a parenthesis, and where a condition is due
mod arithmetic; // sums, products and factors
mod comparisons; // arithmetic, and what compares it
mod conditions; // operands of `&&`, and `!`

ghost use Rattle.std.specs.Prelude.{◌≤◌, ◌<◌, length, drop};
ghost use Rattle.text.specs.Notation.{read_sum, read_test};
ghost use Rattle.scan.specs.Writing.{Builds, OnwardBuilt};
ghost use Rattle.notation.specs.Forms.{arith_form, condition_form};

use crate::arithmetic::arith_at;
use crate::closing::condition_only;
use crate::conditions::either_at;
use scan::Built;

const MOST_PARENTHESES: usize = 32;

// Arithmetic.
#[tactic(auto, using(crate::proofs::ArithLaws::sum_level), unfolding(text::specs::Notation::read_sum))]
pub fn sum_at(s: &[u8], p: usize, out: &mut [u8], at: usize) -> Result<Built<bool>, usize>
    requires { (p ≤ length s.now) × (at ≤ 65536) × (length out.old < 65536) }
    ensures builds { Builds arith_form s.now out.old at out.new (read_sum (drop p s.now)) result }
    ensures onward { OnwardBuilt s.now p at result }
{
    arith_at(s, p, MOST_PARENTHESES, 2, out, at)
}

// A condition.
#[tactic(auto, unfolding(crate::proofs::Opened::tests))]
pub fn test_at(s: &[u8], p: usize, out: &mut [u8], at: usize) -> Result<Built<bool>, usize>
    requires { (p ≤ length s.now) × (at ≤ 65536) × (length out.old < 65536) }
    ensures builds { Builds condition_form s.now out.old at out.new (read_test (drop p s.now)) result }
    ensures onward { OnwardBuilt s.now p at result }
{
    let whole = either_at(s, p, MOST_PARENTHESES, out, at)?;
    condition_only(s, whole)
}
