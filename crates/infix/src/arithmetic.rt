// Arithmetic, along the bytes: the same recursion as reading it.
ghost use Rattle.std.specs.Prelude.{ℕ, ◌≤◌, length};
ghost use Rattle.rules.specs.Format.{read_arith};
ghost use Rattle.printed.specs.Print.{print_arith};
ghost use Rattle.infix.specs.Prints.{Prints};

use crate::Walked;
use crate::body::Body;
use crate::marks::{binding, close_group, open_group, put_sign};
use expression::kind::{ArithKind, arith_at};

impl Body<'_> {
    // Strength is how strongly an expression must bind to stand here without parentheses. The left operand binds as its operator does,
    // the right one more. What does not read is left free, so the place stays.
    #[tactic(auto, using(crate::proofs::TextLaws::arith_laws))]
    pub(crate) fn print_arith(
        &self,
        at: usize,
        depth: usize,
        strength: usize,
        out: &mut [u8],
        from: usize,
    ) -> Walked
        ensures { (n : ℕ) → Prints (print_arith strength) (read_arith depth self.now.s.now self.now.end n at) out.old from out.new result }
    {
        if depth == 0 {
            return Walked { next: at, at: from };
        }
        match arith_at(self.s, at, self.end) {
            Some(ArithKind::Constant) => self.print_constant(at + 1, out, from),
            Some(ArithKind::Register) => self.print_register(at + 1, out, from),
            Some(ArithKind::Operation(o)) => {
                let b = binding(o);
                let grouped = b < strength;
                let first = open_group(out, from, grouped);
                let left = self.print_arith(at + 1, depth - 1, b, out, first);
                let second = put_sign(out, left.at, o);
                let right = self.print_arith(left.next, depth - 1, b + 1, out, second);
                close_group(out, right, grouped)
            }
            None => Walked { next: at, at: from },
        }
    }
}

// The arithmetic that stands at a place.
pub fn print_arith(
    s: &[u8],
    at: usize,
    end: usize,
    depth: usize,
    strength: usize,
    out: &mut [u8],
    from: usize,
) -> Walked
    requires { end ≤ length s.now }
    ensures { (n : ℕ) → Prints (print_arith strength) (read_arith depth s.now end n at) out.old from out.new result }
{
    let body = Body { s, end };
    body.print_arith(at, depth, strength, out, from)
}
