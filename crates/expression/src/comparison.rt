// Narrowing by a comparison: the registers that its two sides name are cut by the other side's interval. Both intervals are
// worked out before either register is cut. Each function gives the registers that are left, or none where the state is emptied.
ghost use Rattle.std.specs.Prelude.{◌≡◌, ◌&&◌, ℕ, ◌<◌};
ghost use Rattle.rules.specs.Constants.{most_registers};
ghost use Rattle.rules.specs.Interval.{Interval, eq_z};
ghost use Rattle.rules.specs.Expression.{keep, on_register, equal_yes, equal_no, less_yes, less_no, compared};
ghost use Rattle.interval.specs.Shape.{interval_of, result_of};
ghost use Rattle.expression.specs.Evaluation.{regs_of};
ghost use Rattle.expression.specs.Comparison.{side_at, side_of, narrowed_of, comparison_rule};
ghost use Rattle.expression.specs.Walk.{registers_in};

use crate::kind::{ArithKind, Relation, arith_at};
use crate::walk::Walk;
use interval::Span;
use refusal::Refusal;

// A side of a comparison: the number of its register, where it is one register, and none where it is any other expression; and the
// interval of its values.
#[derive(Clone, Copy)]
pub(crate) struct Side {
    pub register: Option<usize>,
    pub span: Span,
}

// Register i becomes k: a register narrowed to nothing empties the state.
#[tactic(auto, using(crate::proofs::comparison::Laws::regs_set), unfolding(rules::specs::Expression::keep))]
fn keep_at(mut regs: [Span; 8], i: usize, k: Span) -> Option<[Span; 8]>
    requires { i < most_registers }
    ensures { (n : ℕ) → i < n → narrowed_of n result ≡ keep (regs_of n regs) i (interval_of k) }
{
    if k.low <= k.high {
        regs[i] = k;
        Some(regs)
    } else {
        None
    }
}

#[tactic(auto, using(interval::proofs::Order::equal_is))]
fn same_single_value(i: Span, j: Span) -> bool
    ensures { result ≡ (eq_z i.low.0 i.high.0 && (eq_z j.low.0 j.high.0 && eq_z i.low.0 j.low.0)) }
{
    i.low == i.high && j.low == j.high && i.low == j.low
}

impl Walk<'_> {
    // The register of the side that stands at a place, if it is one.
    #[tactic(auto, unfolding(crate::specs::Comparison::side_at, crate::specs::Comparison::register_at))]
    pub(crate) fn register_at(&self, at: usize) -> Option<usize>
        ensures { result ≡ side_at self.now.s.now self.now.end at }
    {
        match arith_at(self.s, at, self.end)? {
            ArithKind::Register if at + 1 < self.end => Some(usize::from(self.s[at + 1])),
            _ => None,
        }
    }

    // A side that is one register is cut; any other side changes nothing.
    #[tactic(auto, using(crate::proofs::evaluation::Laws::regs_get), unfolding(rules::specs::Expression::on_register))]
    fn cut_side<F: Fn(Span) -> Span>(
        &self,
        side: Side,
        cut: F,
        h: Option<[Span; 8]>,
    ) -> Option<[Span; 8]>
        requires { F.IsAlwaysCallable cut }
        ensures { (f : Interval → Interval) → ((k r : Span) → F.post cut k r → interval_of r ≡ f (interval_of k))
            → narrowed_of self.now.n result ≡ on_register f (side_of self.now.n side.register) (narrowed_of self.now.n h) }
    {
        match side.register {
            Some(i) if i < self.n => {
                let regs = h?;
                keep_at(regs, i, cut(regs[i]))
            }
            _ => h,
        }
    }

    // ---- the rules of equal and less

    #[tactic(auto, unfolding(rules::specs::Expression::equal_yes))]
    fn equal_yes(&self, left: Side, right: Side) -> Option<[Span; 8]>
        ensures { narrowed_of self.now.n result
            ≡ equal_yes (side_of self.now.n left.register) (side_of self.now.n right.register) (registers_in self.now)
            (interval_of left.span) (interval_of right.span) }
    {
        let both = interval::meet(left.span, right.span);
        if both.low <= both.high {
            let regs = self.cut_side(left, |k| interval::meet(k, both), Some(self.regs));
            self.cut_side(right, |k| interval::meet(k, both), regs)
        } else {
            None
        }
    }

    #[tactic(auto, unfolding(rules::specs::Expression::equal_no))]
    fn equal_no(&self, i: Span, j: Span) -> Option<[Span; 8]>
        ensures { narrowed_of self.now.n result ≡ equal_no (registers_in self.now) (interval_of i) (interval_of j) }
    {
        if same_single_value(i, j) {
            None
        } else {
            Some(self.regs)
        }
    }

    #[tactic(auto, unfolding(rules::specs::Expression::less_yes))]
    fn less_yes(&self, left: Side, right: Side) -> Option<[Span; 8]>
        ensures { narrowed_of self.now.n result
            ≡ less_yes (side_of self.now.n left.register) (side_of self.now.n right.register) (registers_in self.now)
            (interval_of left.span) (interval_of right.span) }
    {
        if left.span.low < right.span.high {
            let most = interval::previous(right.span.high);
            let least = interval::next(left.span.low);
            let regs = self.cut_side(left, |k| interval::cut_above(most, k), Some(self.regs));
            self.cut_side(right, |k| interval::cut_below(least, k), regs)
        } else {
            None
        }
    }

    #[tactic(auto, unfolding(rules::specs::Expression::less_no))]
    fn less_no(&self, left: Side, right: Side) -> Option<[Span; 8]>
        ensures { narrowed_of self.now.n result
            ≡ less_no (side_of self.now.n left.register) (side_of self.now.n right.register) (registers_in self.now)
            (interval_of left.span) (interval_of right.span) }
    {
        if right.span.low <= left.span.high {
            let regs = self.cut_side(
                left,
                |k| interval::cut_below(right.span.low, k),
                Some(self.regs),
            );
            self.cut_side(right, |k| interval::cut_above(left.span.high, k), regs)
        } else {
            None
        }
    }

    // The rule of yes where wanted, of no where not: relation and way choose it at once, as `comparison_rule` does, and closures in
    // place of `wanted` would write this match twice.
    pub(crate) fn compare_spans(
        &self,
        wanted: bool,
        o: Relation,
        left: Side,
        right: Side,
    ) -> Option<[Span; 8]>
        ensures { narrowed_of self.now.n result
            ≡ comparison_rule wanted o (side_of self.now.n left.register) (side_of self.now.n right.register)
            (registers_in self.now) (interval_of left.span) (interval_of right.span) }
    {
        match (o, wanted) {
            (Relation::Equal, true) => self.equal_yes(left, right),
            (Relation::Equal, false) => self.equal_no(left.span, right.span),
            (Relation::Less, true) => self.less_yes(left, right),
            (Relation::Less, false) => self.less_no(left, right),
        }
    }

    // The same of sides whose registers are l and m, where both have a reading.
    #[tactic(auto, unfolding(rules::specs::Expression::compared))]
    pub(crate) fn compare_readings(
        &self,
        wanted: bool,
        o: Relation,
        l: Option<usize>,
        m: Option<usize>,
        x: Result<Span, Refusal>,
        y: Result<Span, Refusal>,
    ) -> Option<[Span; 8]>
        ensures { narrowed_of self.now.n result
            ≡ compared (comparison_rule wanted o (side_of self.now.n l) (side_of self.now.n m) (registers_in self.now))
            (result_of x) (result_of y) }
    {
        let left = Side {
            register: l,
            span: x.ok()?,
        };
        let right = Side {
            register: m,
            span: y.ok()?,
        };
        self.compare_spans(wanted, o, left, right)
    }
}
