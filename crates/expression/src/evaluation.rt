// Evaluation over intervals, along the bytes: the same recursion as reading. Each function gives the span or the fault of the
// arithmetic, and the place behind the expression; none where no expression stands, of which `read_arith` has the refusal. A fault
// of the arithmetic does not end the walk, so the place behind the expression is known in every case.
// Evaluating and reading are two walks, each with a type of its own to give and to carry: one visitor would hide the rule of each.
ghost use Rattle.std.specs.Prelude.{◌≡◌, ◌≤◌};
ghost use Rattle.rules.specs.Format.{read_constant, read_register};
ghost use Rattle.expression.specs.Walk.{registers_in, arith_in};
ghost use Rattle.expression.specs.Evaluation.{evaluated_of, evaluated_in};

use crate::kind::{ArithKind, arith_at};
use crate::number::int32_at;
use crate::walk::Walk;
use interval::Span;
use refusal::Refusal;

impl Walk<'_> {
    // The constant whose four bytes stand at p.
    #[tactic(auto, unfolding(rules::specs::Format::read_constant, rules::specs::Format::need, rules::specs::Expression::evaluate))]
    fn evaluate_constant(&self, p: usize) -> Option<(Result<Span, Refusal>, usize)>
        requires { p ≤ self.now.end }
        ensures { evaluated_of result ≡ evaluated_in (registers_in self.now) (read_constant self.now.s.now self.now.end p) }
    {
        if self.end < p + 4 {
            return None;
        }
        let v = int32_at(self.s, p);
        Some((Ok(Span { low: v, high: v }), p + 4))
    }

    // The register whose number stands at p: one of the first n.
    #[tactic(auto, using(crate::proofs::evaluation::Laws::regs_get), unfolding(crate::proofs::evaluation::Laws::register))]
    fn evaluate_register(&self, p: usize) -> Option<(Result<Span, Refusal>, usize)>
        requires { p ≤ self.now.end }
        ensures { evaluated_of result ≡ evaluated_in (registers_in self.now) (read_register self.now.s.now self.now.end self.now.n p) }
    {
        if self.end < p + 1 {
            return None;
        }
        let r = usize::from(self.s[p]);
        if self.n <= r {
            return None;
        }
        Some((Ok(self.regs[r]), p + 1))
    }

    #[tactic(auto, using(crate::proofs::evaluation::Laws::evaluated_laws))]
    pub(crate) fn evaluate(&self, at: usize, depth: usize) -> Option<(Result<Span, Refusal>, usize)>
        ensures { evaluated_of result ≡ evaluated_in (registers_in self.now) (arith_in self.now depth at) }
    {
        if depth == 0 {
            return None;
        }
        match arith_at(self.s, at, self.end)? {
            ArithKind::Constant => self.evaluate_constant(at + 1),
            ArithKind::Register => self.evaluate_register(at + 1),
            ArithKind::Operation(o) => {
                let (x, q) = self.evaluate(at + 1, depth - 1)?;
                let (y, r) = self.evaluate(q, depth - 1)?;
                Some((interval::combine_readings(o, x, y), r))
            }
        }
    }
}
