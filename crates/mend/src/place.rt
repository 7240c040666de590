// A place of the mended sheet, counted in the original: the walk once more, which takes off each halt that was added before it.
// That the sheet is not too long, which bounds each place, is the caller's own test.
ghost use Rattle.std.specs.Prelude.{◌≡◌, ◌+◌, ◌≤◌, length};
ghost use Rattle.rules.specs.Constants.{longest_sheet};
ghost use Rattle.mended.specs.Mend as Rule;
ghost use Rattle.mend.specs.Shape.{past_halt};

use crate::fields::{behind, halt_added, open_after};
use field::whole_field_at;
use std::ops::ControlFlow;

// Bytes of a halt.
const HALT_BYTES: usize = 8;

// The place in the original, or where to go on looking, the halts so far taken off. A halt was added at a place behind a statement, or
// none was.
#[tactic(auto, unfolding(crate::specs::Shape::past_halt))]
fn past_halt(added: Option<usize>, at: usize, p: usize) -> ControlFlow<usize, usize>
    requires { at ≤ longest_sheet }
    ensures { result ≡ past_halt added at p }
{
    match added {
        Some(_) if p < at => ControlFlow::Break(p),
        Some(last) if p < at + HALT_BYTES => ControlFlow::Break(last),
        Some(_) => ControlFlow::Continue(p - HALT_BYTES),
        None => ControlFlow::Continue(p),
    }
}

// No function for this walk and that of `put_fields`: there bytes go out at each field, here halts are taken off, up to the place.
#[tactic(auto, using(crate::proofs::writer::Laws::walk_laws))]
pub(crate) fn original_place(s: &[u8], place: usize) -> usize
    requires { length s.now ≤ longest_sheet }
    ensures { result ≡ Rule.original s.now (Rule.mended s.now).changes place }
{
    let mut p = place;
    let mut last = None;
    let mut at = 0;
    // a `loop`: where the next field stands is read from this one
    loop {
        match past_halt(halt_added(s, at, last), at, p) {
            ControlFlow::Break(q) => return q,
            ControlFlow::Continue(q) => p = q,
        }
        if !whole_field_at(s, at) {
            return p;
        }
        last = open_after(s, at);
        at = behind(s, at);
    }
}
