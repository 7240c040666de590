// The quotient of two values, rounded down, and of two spans.
ghost use Rattle.std.specs.Prelude.{◌≡◌, ◌≢◌, pos, nat_abs};
ghost use Rattle.rules.specs.Constants.{half32};
ghost use Rattle.rules.specs.Interval.{quotient, holds_zero, combine, divide};
ghost use Rattle.interval.specs.Shape.{interval_of, result_of};

use crate::{Span, Val, holds, hull};
use refusal::Refusal;

// ---- of values

// The distance from 0.
fn magnitude(a: Val) -> i64
    ensures { result ≡ pos (nat_abs a.0) }
{
    i64::from(a.0).abs()
}

// How far from 0 the quotient is. It is rounded down: away from 0 where the signs differ. Dividends and divisors here are below 2^32,
// so that a division takes 32 bits.
fn quotient_magnitude(a: Val, b: Val) -> i64
    requires { b.0 ≢ pos 0 }
    ensures { result ≡ pos (nat_abs (quotient a.0 b.0)) }
{
    let m = magnitude(a);
    let n = magnitude(b);
    if (a.0 < 0) != (b.0 < 0) {
        let d = m + (n - 1);
        return d / n;
    }
    m / n
}

fn divide_nonzero(a: Val, b: Val) -> i64
    requires { b.0 ≢ pos 0 }
    ensures { result ≡ quotient a.0 b.0 }
{
    let q = quotient_magnitude(a, b);
    if (a.0 < 0) == (b.0 < 0) { q } else { -q }
}

// By 0 it is 0, as in the rules: an end of a divisor's span can be 0 without the span holding 0, where low is above high.
#[tactic(auto, unfolding(rules::specs::Interval::quotient))]
fn divide(a: Val, b: Val) -> i64
    ensures { result ≡ quotient a.0 b.0 }
{
    if b.0 == 0 {
        return 0;
    }
    divide_nonzero(a, b)
}

// ---- of spans

#[tactic(auto, unfolding(rules::specs::Interval::holds_zero, crate::specs::Bounds::holds))]
fn holds_zero(b: Span) -> bool
    ensures { result ≡ holds_zero (interval_of b) }
{
    holds(b, Val(0))
}

// Zero before size: a divisor that may be 0 is told before a quotient that leaves the 32-bit values.
#[tactic(auto, unfolding(rules::specs::Interval::combine, rules::specs::Interval::may_divide_by_zero))]
pub(crate) fn quotient(a: Span, b: Span) -> Result<Span, Refusal>
    ensures { result_of result ≡ combine half32 divide (interval_of a) (interval_of b) }
{
    if holds_zero(b) {
        return Err(Refusal::NoReading);
    }
    hull(divide, a, b)
}
