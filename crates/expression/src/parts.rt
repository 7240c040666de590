// Every part of a condition worked out on the registers before narrowing, both sides of an "and" always: the first fault
// from the left, or none.
// Working out the parts, narrowing by yes and by no, and reading are four walks, each with a type of its own to give and to carry: one
// visitor would hide the rule of each.
ghost use Rattle.std.specs.Prelude.{◌≡◌};
ghost use Rattle.expression.specs.Walk.{registers_in, condition_in, sides_in};
ghost use Rattle.expression.specs.Parts.{check_of, checked_of, parts_in, first_fault};

use crate::kind::{ConditionKind, Relation, condition_at};
use crate::walk::Walk;
use refusal::Refusal;

// The first fault of two results, from the left.
#[tactic(auto, unfolding(rules::specs::Refusal::on_both))]
pub(crate) fn first_fault<A: Copy, B: Copy>(
    x: Result<A, Refusal>,
    y: Result<B, Refusal>,
) -> Result<(), Refusal>
    ensures { check_of result ≡ first_fault (check_of x) (check_of y) }
{
    x?;
    y?;
    Ok(())
}

impl Walk<'_> {
    // The two sides of a comparison, whichever it is.
    #[tactic(auto, using(crate::proofs::parts::Laws::sides_are, crate::proofs::parts::Laws::faults_same))]
    fn check_sides(&self, at: usize, depth: usize) -> Option<(Result<(), Refusal>, usize)>
        ensures { (o : Relation) → checked_of result ≡ parts_in (registers_in self.now) (sides_in self.now o depth at) }
    {
        let (x, q) = self.evaluate(at, depth)?;
        let (y, r) = self.evaluate(q, depth)?;
        Some((first_fault(x, y), r))
    }

    #[tactic(auto, using(crate::proofs::parts::Laws::parts_laws), unfolding(rules::specs::Expression::all_parts))]
    pub(crate) fn all_parts(&self, at: usize, depth: usize) -> Option<(Result<(), Refusal>, usize)>
        ensures { checked_of result ≡ parts_in (registers_in self.now) (condition_in self.now depth at) }
    {
        if depth == 0 {
            return None;
        }
        match condition_at(self.s, at, self.end)? {
            ConditionKind::Always | ConditionKind::Never => Some((Ok(()), at + 1)),
            ConditionKind::Negation => self.all_parts(at + 1, depth - 1),
            ConditionKind::Conjunction => {
                let (left, q) = self.all_parts(at + 1, depth - 1)?;
                let (right, r) = self.all_parts(q, depth - 1)?;
                Some((first_fault(left, right), r))
            }
            ConditionKind::Comparison(_) => self.check_sides(at + 1, depth - 1),
        }
    }
}
