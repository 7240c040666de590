// Expressions where every value is known. Each register is a span of one value; on such spans the rules for intervals give the value,
// the truth and the faults of a run.
ghost use Rattle.std.specs.Prelude.{◌≡◌, ℕ, ◌≤◌, map, length};
ghost use Rattle.rules.specs.Constants.{deepest, most_registers};
ghost use Rattle.rules.specs.Program as P;
ghost use Rattle.rules.specs.Format.{got, read_arith, read_condition};
ghost use Rattle.rules.specs.Run.{value_of, truth_of};
ghost use Rattle.rules.specs.Faults.{single};
ghost use Rattle.expression.specs.Evaluation.{regs_of};
ghost use Rattle.record.specs.Known.{values_of, value_in, truth_in};

use expression::{assigned_value, branch_on};
use interval::{Span, Val};
use refusal::Refusal;

// The registers as spans.
fn single_spans(regs: [Val; 8]) -> [Span; 8]
    ensures { (n : ℕ) → regs_of n result ≡ map single (values_of n regs) }
{
    regs.map(|v| Span { low: v, high: v })
}

// The value of the expression at a place, which ends its statement, with the first n registers; or the fault of its arithmetic.
pub(crate) fn value_of(
    s: &[u8],
    at: usize,
    end: usize,
    n: usize,
    regs: [Val; 8],
) -> Result<Val, Refusal>
    requires { (end ≤ length s.now) × (n ≤ most_registers) }
    ensures { (a : P.Arith) → read_arith deepest s.now end n at ≡ got a end → value_in result ≡ value_of a (values_of n regs) }
{
    let span = assigned_value(s, at, end, n, single_spans(regs))?;
    Ok(span.low)
}

// The truth of the condition at a place, likewise.
pub(crate) fn truth_of(
    s: &[u8],
    at: usize,
    end: usize,
    n: usize,
    regs: [Val; 8],
) -> Result<bool, Refusal>
    requires { (end ≤ length s.now) × (n ≤ most_registers) }
    ensures { (a : P.Condition) → read_condition deepest s.now end n at ≡ got a end
        → truth_in result ≡ truth_of a (values_of n regs) }
{
    let branch = branch_on(s, at, end, n, single_spans(regs));
    branch.check?;
    Ok(branch.yes.is_some())
}
