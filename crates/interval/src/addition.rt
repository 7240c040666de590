// Sums and differences of two values, and of two spans. They are formed in 64 bits, where none can wrap.
ghost use Rattle.std.specs.Prelude.{◌≡◌, ◌+ℤ◌, ◌-ℤ◌};
ghost use Rattle.rules.specs.Constants.{half32};
ghost use Rattle.rules.specs.Interval.{combine, plus, minus};
ghost use Rattle.interval.specs.Shape.{interval_of, result_of};

use crate::{Span, Val, hull};
use refusal::Refusal;

fn add(a: Val, b: Val) -> i64
    ensures { result ≡ a.0 +ℤ b.0 }
{
    i64::from(a.0) + i64::from(b.0)
}

fn subtract(a: Val, b: Val) -> i64
    ensures { result ≡ a.0 -ℤ b.0 }
{
    i64::from(a.0) - i64::from(b.0)
}

pub(crate) fn sum(a: Span, b: Span) -> Result<Span, Refusal>
    ensures { result_of result ≡ combine half32 plus (interval_of a) (interval_of b) }
{
    hull(add, a, b)
}

pub(crate) fn difference(a: Span, b: Span) -> Result<Span, Refusal>
    ensures { result_of result ≡ combine half32 minus (interval_of a) (interval_of b) }
{
    hull(subtract, a, b)
}
