// The product of two spans. Its four products are formed in 32 bits where all four ends are values of 16 bits, else in 64 bits.
ghost use Rattle.std.specs.Prelude.{◌≡◌, ◌*ℤ◌};
ghost use Rattle.std.specs.Int.{w32};
ghost use Rattle.std.proofs.Common.{SFits};
ghost use Rattle.rules.specs.Constants.{half32};
ghost use Rattle.rules.specs.Interval.{combine, times};
ghost use Rattle.interval.specs.Shape.{interval_of, result_of};
ghost use Rattle.interval.specs.Bounds.{holds_ends};

use crate::{Span, Val, ends, holds, hull};
use refusal::Refusal;

// The signed values of 16 bits: the product of any two of them is a value of 32 bits.
const SIXTEEN_BITS: Span = Span {
    low: Val(-32768),
    high: Val(32767),
};

fn multiply(a: Val, b: Val) -> i64
    ensures { result ≡ a.0 *ℤ b.0 }
{
    i64::from(a.0) * i64::from(b.0)
}

// The same, formed in 32 bits: the caller knows that it fits them.
fn multiply_in_32_bits(a: Val, b: Val) -> Val
    requires { SFits w32 (a.0 *ℤ b.0) }
    ensures { result.0 ≡ a.0 *ℤ b.0 }
{
    Val(a.0 * b.0)
}

// Whether both ends of a lie on s.
#[tactic(auto, unfolding(crate::specs::Bounds::holds_ends))]
fn holds_ends(s: Span, a: Span) -> bool
    ensures { result ≡ holds_ends (interval_of s) (interval_of a) }
{
    holds(s, a.low) && holds(s, a.high)
}

pub(crate) fn product(a: Span, b: Span) -> Result<Span, Refusal>
    ensures { result_of result ≡ combine half32 times (interval_of a) (interval_of b) }
{
    if holds_ends(SIXTEEN_BITS, a) && holds_ends(SIXTEEN_BITS, b) {
        let (low, high) = ends(multiply_in_32_bits, a, b);
        return Ok(Span { low, high });
    }
    hull(multiply, a, b)
}
