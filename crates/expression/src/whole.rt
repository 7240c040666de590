// A whole expression or condition of a statement, which may nest twelve deep: what an assignment and a branch ask of it.
ghost use Rattle.std.specs.Prelude.{◌≡◌, ℕ, ◌≤◌, length};
ghost use Rattle.rules.specs.Constants.{deepest, most_registers};
ghost use Rattle.rules.specs.Format.{read_arith, read_condition};
ghost use Rattle.interval.specs.Shape.{result_of};
ghost use Rattle.expression.specs.Evaluation.{regs_of, evaluated_in};
ghost use Rattle.expression.specs.Parts.{check_of, checked_of};
ghost use Rattle.expression.specs.Comparison.{narrowed_of};
ghost use Rattle.expression.specs.Narrowing.{narrowed_at_of};
ghost use Rattle.expression.specs.Whole.{result_in, left_in, Branches};
ghost use Rattle.expression.specs.Walk.{registers_in, condition_in, sides_in};

use crate::kind::{ConditionKind, Relation, condition_at};
use crate::parts::first_fault;
use crate::walk::Walk;
use interval::Span;
use refusal::Refusal;

// How deep an expression may nest.
pub const DEEPEST: usize = 12;

// The interval that an assignment gives its register, or the fault; BadExpression where no expression stands there.
pub fn assigned_value(
    s: &[u8],
    at: usize,
    end: usize,
    n: usize,
    regs: [Span; 8],
) -> Result<Span, Refusal>
    requires { (end ≤ length s.now) × (n ≤ most_registers) }
    ensures { result_of result ≡ result_in (evaluated_in (regs_of n regs) (read_arith deepest s.now end n at)) }
{
    let walk = Walk { s, end, n, regs };
    let (v, _) = walk.evaluate(at, DEEPEST).ok_or(Refusal::BadExpression)?;
    v
}

// The two ways of a branch: the registers with which it is taken, and with which it is not. None where narrowing emptied the state. Where
// the check is a fault, the statement has no result; what the ways leave is promised all the same.
#[derive(Clone, Copy)]
pub struct Branch {
    pub check: Result<(), Refusal>,
    pub yes: Option<[Span; 8]>,
    pub no: Option<[Span; 8]>,
}

// Where no condition stands.
const UNREAD: Branch = Branch {
    check: Err(Refusal::BadExpression),
    yes: None,
    no: None,
};

fn check_in(a: Option<(Result<(), Refusal>, usize)>) -> Result<(), Refusal>
    ensures { check_of result ≡ result_in (checked_of a) }
{
    let (check, _) = a.ok_or(Refusal::BadExpression)?;
    check
}

fn left_in(a: Option<(Option<[Span; 8]>, usize)>) -> Option<[Span; 8]>
    ensures { (n : ℕ) → narrowed_of n result ≡ left_in (narrowed_at_of n a) }
{
    let (left, _) = a?;
    left
}

impl Walk<'_> {
    // A branch on the comparison whose left side stands at a place: each side is evaluated once.
    #[tactic(auto, using(crate::proofs::whole::Laws::pair))]
    fn branch_on_comparison(&self, o: Relation, at: usize, depth: usize) -> Branch
        ensures { Branches self.now.n (registers_in self.now) (sides_in self.now o depth at) result }
    {
        let Some((x, q)) = self.evaluate(at, depth) else {
            return UNREAD;
        };
        let Some((y, _)) = self.evaluate(q, depth) else {
            return UNREAD;
        };
        let l = self.register_at(at);
        let m = self.register_at(q);
        Branch {
            check: first_fault(x, y),
            yes: self.compare_readings(true, o, l, m, x, y),
            no: self.compare_readings(false, o, l, m, x, y),
        }
    }

    // A branch on any condition, which is walked for its parts, for the yes state and for the no state.
    fn branch_by_walks(&self, at: usize) -> Branch
        ensures { Branches self.now.n (registers_in self.now) (condition_in self.now deepest at) result }
    {
        Branch {
            check: check_in(self.all_parts(at, DEEPEST)),
            yes: left_in(self.narrow_yes(at, DEEPEST)),
            no: left_in(self.narrow_no(at, DEEPEST)),
        }
    }
}

pub fn branch_on(s: &[u8], at: usize, end: usize, n: usize, regs: [Span; 8]) -> Branch
    requires { (end ≤ length s.now) × (n ≤ most_registers) }
    ensures { Branches n (regs_of n regs) (read_condition deepest s.now end n at) result }
{
    let walk = Walk { s, end, n, regs };
    match condition_at(s, at, end) {
        Some(ConditionKind::Comparison(o)) => walk.branch_on_comparison(o, at + 1, DEEPEST - 1),
        _ => walk.branch_by_walks(at),
    }
}
