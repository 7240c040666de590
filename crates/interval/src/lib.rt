// Interval arithmetic on the signed 32-bit values. Every function takes any two spans, also one whose low is above its high,
// and gives what the rules give for the same intervals.
#![tactic(auto)]

ghost use Rattle.std.specs.Prelude.{◌≡◌, ℤ, if◌then◌else◌};
ghost use Rattle.std.proofs.Math.IntN.{suc_ℤ, pred_ℤ};
ghost use Rattle.std.specs.Int.{w32};
ghost use Rattle.std.proofs.Common.{SFits};
ghost use Rattle.rules.specs.Constants.{half32};
ghost use Rattle.rules.specs.Refusal.{on_both};
ghost use Rattle.rules.specs.Interval.{interval, in_range, hull, within, combine, meet, join};
ghost use Rattle.rules.specs.Expression.{at_most, at_least};
ghost use Rattle.interval.specs.Shape.{interval_of, result_of, operator_of};
ghost use Rattle.interval.specs.Bounds.{holds, EndsOf};

use addition::{difference, sum};
use division::quotient;
use multiplication::product;
use refusal::Refusal;

mod addition; // sum and difference
mod multiplication; // product
mod division; // quotient

// A value of a register or a variable.
#[derive(Clone, Copy, PartialEq, Eq, PartialOrd, Ord)]
pub struct Val(pub i32);

// The values from low to high, both included: none where low is above high.
#[derive(Clone, Copy)]
pub struct Span {
    pub low: Val,
    pub high: Val,
}

#[derive(Clone, Copy)]
pub enum Operator {
    Plus,
    Minus,
    Times,
    Divide,
}

// ---- a span of results. They are formed in 64 bits, before their range is tested

// The least and the greatest of what f gives at the ends of two spans.
fn ends<T: Ord + Copy, F: Fn(Val, Val) -> T>(f: F, a: Span, b: Span) -> (T, T)
    requires low_low { F.pre f a.low b.low }
    requires low_high { F.pre f a.low b.high }
    requires high_low { F.pre f a.high b.low }
    requires high_high { F.pre f a.high b.high }
    ensures { EndsOf T.cmp (F.post f) a b result.0 result.1 }
{
    let p = f(a.low, b.low);
    let q = f(a.low, b.high);
    let r = f(a.high, b.low);
    let s = f(a.high, b.high);
    (p.min(q).min(r.min(s)), p.max(q).max(r.max(s)))
}

// A match: `map` and `map_err` with two closures were tried, and the goal about the two together stays open.
fn narrow(a: i64) -> Result<Val, Refusal>
    ensures { result ≡ (if in_range half32 a then Ok (record { 0 = a }) else Err Refusal.OffScale) }
{
    match i32::try_from(a) {
        Ok(x) => Ok(Val(x)),
        Err(_) => Err(Refusal::OffScale),
    }
}

// The span of two ends, unless one of them leaves the 32-bit values.
#[tactic(auto, unfolding(rules::specs::Interval::within, rules::specs::Interval::fits))]
fn span_within(low: i64, high: i64) -> Result<Span, Refusal>
    ensures { result_of result ≡ within half32 (interval low high) }
{
    Ok(Span {
        low: narrow(low)?,
        high: narrow(high)?,
    })
}

// The span of what f gives at the ends of two spans, unless one of its own ends leaves the 32-bit values.
fn hull<F: Fn(Val, Val) -> i64>(f: F, a: Span, b: Span) -> Result<Span, Refusal>
    requires { F.IsAlwaysCallable f }
    ensures { (g : ℤ → ℤ → ℤ) → ((x y : Val) (r : ℤ) → F.post f x y r → r ≡ g x.0 y.0)
        → result_of result ≡ within half32 (hull g (interval_of a) (interval_of b)) }
{
    let (low, high) = ends(f, a, b);
    span_within(low, high)
}

// ---- operators on spans, and on readings

fn combine(o: Operator, a: Span, b: Span) -> Result<Span, Refusal>
    ensures { result_of result ≡ combine half32 (operator_of o) (interval_of a) (interval_of b) }
{
    match o {
        Operator::Plus => sum(a, b),
        Operator::Minus => difference(a, b),
        Operator::Times => product(a, b),
        Operator::Divide => quotient(a, b),
    }
}

// The operator on two readings, each a span or the refusal that stands in its way: the first fault from the left is passed up.
#[tactic(auto, unfolding(rules::specs::Refusal::on_both))]
pub fn combine_readings(
    o: Operator,
    x: Result<Span, Refusal>,
    y: Result<Span, Refusal>,
) -> Result<Span, Refusal>
    ensures { result_of result ≡ on_both (combine half32 (operator_of o)) (result_of x) (result_of y) }
{
    combine(o, x?, y?)
}

// ---- a value on a span

// Whether a value lies on a span.
#[tactic(auto, unfolding(crate::specs::Bounds::holds))]
pub fn holds(s: Span, a: Val) -> bool
    ensures { result ≡ holds (interval_of s) a.0 }
{
    s.low <= a && a <= s.high
}

// ---- spans met, joined and cut

#[tactic(auto, using(crate::proofs::Order::lower_is, crate::proofs::Order::upper_is), unfolding(rules::specs::Interval::meet))]
pub fn meet(a: Span, b: Span) -> Span
    ensures { interval_of result ≡ meet (interval_of a) (interval_of b) }
{
    Span {
        low: a.low.max(b.low),
        high: a.high.min(b.high),
    }
}

#[tactic(auto, using(crate::proofs::Order::lower_is, crate::proofs::Order::upper_is), unfolding(rules::specs::Interval::join))]
pub fn join(a: Span, b: Span) -> Span
    ensures { interval_of result ≡ join (interval_of a) (interval_of b) }
{
    Span {
        low: a.low.min(b.low),
        high: a.high.max(b.high),
    }
}

// The part of a span up to z, and the part from z.
#[tactic(auto, using(crate::proofs::Order::lower_is), unfolding(rules::specs::Expression::at_most))]
pub fn cut_above(z: Val, a: Span) -> Span
    ensures { interval_of result ≡ at_most z.0 (interval_of a) }
{
    Span {
        high: a.high.min(z),
        ..a
    }
}

#[tactic(auto, using(crate::proofs::Order::upper_is), unfolding(rules::specs::Expression::at_least))]
pub fn cut_below(z: Val, a: Span) -> Span
    ensures { interval_of result ≡ at_least z.0 (interval_of a) }
{
    Span {
        low: a.low.max(z),
        ..a
    }
}

// The value after a, and the one before: the caller knows that it is one.
pub fn next(a: Val) -> Val
    requires { SFits w32 (suc_ℤ a.0) }
    ensures { result.0 ≡ suc_ℤ a.0 }
{
    Val(a.0 + 1)
}

pub fn previous(a: Val) -> Val
    requires { SFits w32 (pred_ℤ a.0) }
    ensures { result.0 ≡ pred_ℤ a.0 }
{
    Val(a.0 - 1)
}
