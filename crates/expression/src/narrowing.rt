// Narrowing the registers by a condition, along the bytes. The yes rule of a negation is the no rule of its operand, and the
// reverse, so the two functions call each other; the depth that is left falls. Each gives the registers that are left, or none where
// the state is emptied, and the place behind the condition; no pair at all where no condition stands.
ghost use Rattle.std.specs.Prelude.{◌≡◌, ℕ};
ghost use Rattle.rules.specs.Expression.{join_regs, join_both};
ghost use Rattle.expression.specs.Evaluation.{regs_of};
ghost use Rattle.expression.specs.Comparison.{narrowed_of};
ghost use Rattle.expression.specs.Narrowing.{narrowed_at_of, yes_in, no_in, narrowed_in};
ghost use Rattle.expression.specs.Walk.{registers_in, condition_in, sides_in};

use crate::kind::{ConditionKind, Relation, condition_at};
use crate::walk::Walk;
use interval::Span;
use std::array;

fn join_regs(a: [Span; 8], b: [Span; 8]) -> [Span; 8]
    ensures { (n : ℕ) → regs_of n result ≡ join_regs (regs_of n a) (regs_of n b) }
{
    array::from_fn(|i| interval::join(a[i], b[i]))
}

// The join of two results, an empty one ignored.
#[tactic(auto, unfolding(rules::specs::Expression::join_both))]
fn join_both(a: Option<[Span; 8]>, b: Option<[Span; 8]>) -> Option<[Span; 8]>
    ensures { (n : ℕ) → narrowed_of n result ≡ join_both (narrowed_of n a) (narrowed_of n b) }
{
    match (a, b) {
        (Some(f), Some(g)) => Some(join_regs(f, g)),
        (Some(f), None) => Some(f),
        (None, other) => other,
    }
}

impl Walk<'_> {
    // A comparison whose left side stands at a place: by yes where wanted, by no where not (why a flag: `compare_spans`).
    #[tactic(auto, using(crate::proofs::narrowing::Laws::comparison_is))]
    fn narrow_comparison(
        &self,
        wanted: bool,
        o: Relation,
        at: usize,
        depth: usize,
    ) -> Option<(Option<[Span; 8]>, usize)>
        ensures { narrowed_at_of self.now.n result ≡ narrowed_in wanted (registers_in self.now) (sides_in self.now o depth at) }
    {
        let (x, q) = self.evaluate(at, depth)?;
        let (y, r) = self.evaluate(q, depth)?;
        let l = self.register_at(at);
        let m = self.register_at(q);
        Some((self.compare_readings(wanted, o, l, m, x, y), r))
    }

    // The right side of an "and" is narrowed on the registers that the left leaves. Where the left leaves none, it is walked
    // for its end alone.
    #[cycle(narrow_no_narrow_yes)]
    #[tactic(auto, using(crate::proofs::narrowing::Laws::yes_laws), unfolding(rules::specs::Expression::narrow_yes))]
    pub(crate) fn narrow_yes(&self, at: usize, depth: usize) -> Option<(Option<[Span; 8]>, usize)>
        ensures { narrowed_at_of self.now.n result ≡ yes_in (registers_in self.now) (condition_in self.now depth at) }
    {
        if depth == 0 {
            return None;
        }
        match condition_at(self.s, at, self.end)? {
            ConditionKind::Always => Some((Some(self.regs), at + 1)),
            ConditionKind::Never => Some((None, at + 1)),
            ConditionKind::Negation => self.narrow_no(at + 1, depth - 1),
            ConditionKind::Conjunction => {
                let (left, q) = self.narrow_yes(at + 1, depth - 1)?;
                let narrowed = self.with_registers(left.unwrap_or(self.regs));
                let (right, r) = narrowed.narrow_yes(q, depth - 1)?;
                Some((left.and(right), r))
            }
            ConditionKind::Comparison(o) => self.narrow_comparison(true, o, at + 1, depth - 1),
        }
    }

    // Both sides of an "and" are narrowed on the registers as they are, and the results joined.
    #[cycle(narrow_no_narrow_yes)]
    #[tactic(auto, using(crate::proofs::narrowing::Laws::no_laws), unfolding(rules::specs::Expression::narrow_yes))]
    pub(crate) fn narrow_no(&self, at: usize, depth: usize) -> Option<(Option<[Span; 8]>, usize)>
        ensures { narrowed_at_of self.now.n result ≡ no_in (registers_in self.now) (condition_in self.now depth at) }
    {
        if depth == 0 {
            return None;
        }
        match condition_at(self.s, at, self.end)? {
            ConditionKind::Always => Some((None, at + 1)),
            ConditionKind::Never => Some((Some(self.regs), at + 1)),
            ConditionKind::Negation => self.narrow_yes(at + 1, depth - 1),
            ConditionKind::Conjunction => {
                let (left, q) = self.narrow_no(at + 1, depth - 1)?;
                let (right, r) = self.narrow_no(q, depth - 1)?;
                Some((join_both(left, right), r))
            }
            ConditionKind::Comparison(o) => self.narrow_comparison(false, o, at + 1, depth - 1),
        }
    }
}
