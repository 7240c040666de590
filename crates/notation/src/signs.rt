// Signs that join two operands: each reader gives the sign's code in the sheet and the place behind it, or none; or the place where one
// that is begun cannot go on. The codes are the sheet's own bytes, written as they are: an enum would only be turned back into them.
#![tactic(auto, using(scan::proofs::WordLaws::places, crate::proofs::SignLaws::codes), unfolding(crate::proofs::Opened::signs))]

ghost use Rattle.std.specs.Prelude.{◌≤◌, length, Ok};
ghost use Rattle.text.specs.Notation.{comparisons, conjunctions};
ghost use Rattle.notation.specs.Forms.{arith_form, condition_form, ops_at, operation_of, rel_of, both_of};
ghost use Rattle.notation.specs.Signs.{SignRead};

use scan::spaces_end;

// The operator of a level that stands next: one byte, so none is broken.
pub(crate) fn operator_at(s: &[u8], p: usize, level: usize) -> Option<(u8, usize)>
    requires { p ≤ length s.now }
    ensures { SignRead arith_form arith_form operation_of (ops_at level) s.now p (Ok result) }
{
    let q = spaces_end(s, p);
    let code = match (s.get(q)?, level == 1) {
        (b'*', true) => 20,
        (b'/', true) => 21,
        (b'+', false) => 18,
        (b'-', false) => 19,
        _ => return None,
    };
    Some((code, q + 1))
}

// What compares.
pub(crate) fn comparison_at(s: &[u8], p: usize) -> Result<Option<(u8, usize)>, usize>
    requires { p ≤ length s.now }
    ensures { SignRead arith_form condition_form rel_of comparisons s.now p result }
{
    let q = spaces_end(s, p);
    match s.get(q) {
        Some(b'=') if s.get(q + 1) == Some(&b'=') => Ok(Some((36, q + 2))),
        Some(b'=') => Err(q + 1),
        Some(b'<') => Ok(Some((37, q + 1))),
        _ => Ok(None),
    }
}

// The `&&`.
pub(crate) fn conjunction_at(s: &[u8], p: usize) -> Result<Option<(u8, usize)>, usize>
    requires { p ≤ length s.now }
    ensures { SignRead condition_form condition_form both_of conjunctions s.now p result }
{
    let q = spaces_end(s, p);
    match s.get(q) {
        Some(b'&') if s.get(q + 1) == Some(&b'&') => Ok(Some((35, q + 2))),
        Some(b'&') => Err(q + 1),
        _ => Ok(None),
    }
}
