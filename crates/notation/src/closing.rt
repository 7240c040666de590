// What ends a parenthesis, and where a condition is due.
ghost use Rattle.std.specs.Prelude.{◌≤◌, length};
ghost use Rattle.notation.specs.Forms.{arith_form, thing_form, Closes, Requires, KeepsOn};

use scan::{Built, spaces_end, symbol_at};

// What an opening parenthesis began, closed.
#[tactic(auto, unfolding(crate::proofs::Opened::parentheses))]
pub(crate) fn closed_at(s: &[u8], inside: Built<bool>) -> Result<Built<bool>, usize>
    requires { inside.place ≤ length s.now }
    ensures sums { Closes arith_form s.now inside result }
    ensures things { Closes thing_form s.now inside result }
    ensures onward { KeepsOn s.now inside result }
{
    let place = symbol_at(s, inside.place, b")")?;
    Ok(Built { place, ..inside })
}

// Where a condition is due, arithmetic alone lacks its comparison: it stops at what stands behind it.
#[tactic(auto, using(crate::proofs::CloseLaws::requires_yes), unfolding(scan::specs::Writing::Builds))]
pub(crate) fn condition_only(s: &[u8], x: Built<bool>) -> Result<Built<bool>, usize>
    requires { x.place ≤ length s.now }
    ensures condition { Requires s.now x result }
    ensures onward { KeepsOn s.now x result }
{
    if x.kind {
        Ok(x)
    } else {
        Err(spaces_end(s, x.place))
    }
}
