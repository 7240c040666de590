// Conditions, along the bytes: the same recursion as reading them.
ghost use Rattle.std.specs.Prelude.{◌≡◌, ℕ, ◌≤◌, length};
ghost use Rattle.rules.specs.Format.{read_condition};
ghost use Rattle.expression.specs.Kind.{relation_of};
ghost use Rattle.expression.specs.Reading.{pair_at};
ghost use Rattle.writing.specs.Out.{Writes};
ghost use Rattle.printed.specs.Print.{print_condition};
ghost use Rattle.infix.specs.Prints.{Prints};

use crate::body::Body;
use crate::marks::{close_group, open_group, put_relation};
use crate::{ANY_ARITH, ANY_CONDITION, Walked};
use expression::kind::{ConditionKind, Relation, condition_at};
use writing::{put, put_bytes};

// Where one operand of `&&` or of `!` may stand.
const ONE_CONDITION: usize = 2;

// `true` or `false`.
fn print_word(word: &[u8], next: usize, out: &mut [u8], from: usize) -> Walked
    ensures { (result.next ≡ next) × Writes word.now out.old from out.new result.at }
{
    Walked {
        next,
        at: put_bytes(out, from, word),
    }
}

impl Body<'_> {
    // The two sides of a comparison.
    fn print_comparison(
        &self,
        at: usize,
        depth: usize,
        o: Relation,
        out: &mut [u8],
        from: usize,
    ) -> Walked
        ensures { (n strength : ℕ)
            → Prints (print_condition strength) (pair_at depth self.now.s.now self.now.end n at (relation_of o))
            out.old from out.new result }
    {
        let left = self.print_arith(at, depth, ANY_ARITH, out, from);
        let second = put_relation(out, left.at, o);
        self.print_arith(left.next, depth, ANY_ARITH, out, second)
    }

    // Strength is how strongly a condition must bind to stand here without parentheses. What does not read is left free, so the place
    // stays.
    #[tactic(auto, using(crate::proofs::TextLaws::condition_laws))]
    pub(crate) fn print_condition(
        &self,
        at: usize,
        depth: usize,
        strength: usize,
        out: &mut [u8],
        from: usize,
    ) -> Walked
        ensures { (n : ℕ) → Prints (print_condition strength) (read_condition depth self.now.s.now self.now.end n at)
            out.old from out.new result }
    {
        if depth == 0 {
            return Walked { next: at, at: from };
        }
        match condition_at(self.s, at, self.end) {
            Some(ConditionKind::Always) => print_word(b"true", at + 1, out, from),
            Some(ConditionKind::Never) => print_word(b"false", at + 1, out, from),
            Some(ConditionKind::Negation) => {
                let first = put(out, from, b'!');
                self.print_condition(at + 1, depth - 1, ONE_CONDITION, out, first)
            }
            Some(ConditionKind::Conjunction) => {
                let grouped = ANY_CONDITION < strength;
                let first = open_group(out, from, grouped);
                let left = self.print_condition(at + 1, depth - 1, ANY_CONDITION, out, first);
                let second = put_bytes(out, left.at, b" && ");
                let right = self.print_condition(left.next, depth - 1, ONE_CONDITION, out, second);
                close_group(out, right, grouped)
            }
            Some(ConditionKind::Comparison(o)) => {
                self.print_comparison(at + 1, depth - 1, o, out, from)
            }
            None => Walked { next: at, at: from },
        }
    }
}

// The condition that stands at a place.
pub fn print_condition(
    s: &[u8],
    at: usize,
    end: usize,
    depth: usize,
    strength: usize,
    out: &mut [u8],
    from: usize,
) -> Walked
    requires { end ≤ length s.now }
    ensures { (n : ℕ) → Prints (print_condition strength) (read_condition depth s.now end n at) out.old from out.new result }
{
    let body = Body { s, end };
    body.print_condition(at, depth, strength, out, from)
}
