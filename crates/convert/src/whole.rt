// The lines of a text one after another, each with its field written behind the last. A field at a target is looked for on the way: the
// start of its line and whether its numbers fit.
//
// The text and a place in it, and the output and a place in it, stay apart, since each call has other places: a struct would be made anew
// at each.
ghost use Rattle.std.specs.Prelude.{◌≡◌, [], ◌∷◌, ◌++◌, ◌≤◌, ◌<◌, min, length, drop, if◌then◌else◌};
ghost use Rattle.std.proofs.lemmas.List.Edits.{sets};
ghost use Rattle.text.specs.Lines.{locks_due, read_line, read_lines, may_end};
ghost use Rattle.text.specs.Convert.{Piece};
ghost use Rattle.scan.specs.Writing.{OnwardBuilt};
ghost use Rattle.lines.specs.Writing.{due_of};
ghost use Rattle.convert.specs.Whole.{place_in, Pieces, Stands, Lays, SoFar, MadeFrom, Makes, made_place};

use crate::head::head_at;
use lines::fields::put_none;
use lines::{Due, line_at};
use scan::{Built, past};

// The end of what is written; how many bytes it would be with every number that is too big; and of the field at the target, if there is
// one, the start of its line and whether its numbers fit.
#[derive(Clone, Copy)]
pub(crate) struct Written {
    pub end: usize,
    pub whole: usize,
    pub at_target: Option<(usize, bool)>,
}

// Where the next field goes in a buffer of this length: to its end, if the whole of the fields before has no room in it.
fn field_place(from: usize, whole: usize, len: usize) -> usize
    ensures value { result ≡ place_in len from whole }
    ensures upper_bound { result ≤ len }
{
    if len < whole { len } else { from.min(len) }
}

// A line, with its field behind the bytes up to a place: those are kept, whatever its numbers are.
fn line_behind(
    s: &[u8],
    p: usize,
    due: Due,
    out: &mut [u8],
    from: usize,
    whole: usize,
) -> Result<Built<Due>, usize>
    requires { (p ≤ length s.now) × (length out.old < 65536) }
    ensures lays { Lays s.now out.old from whole out.new (read_line (due_of due) (drop p s.now)) result }
    ensures onward_field { OnwardBuilt s.now p 0 result }
{
    let k = field_place(from, whole, out.len());
    line_at(s, p, due, &mut out[k..], 0)
}

// The bytes of a field that was written: where its numbers do not fit, three zeros stand for it.
fn closed(out: &mut [u8], from: usize, size: usize, fits: bool) -> usize
    requires { from ≤ 65536 }
    ensures value { result ≡ (if fits then size else 3) }
    ensures out_after { out.new ≡ (if fits then out.old else sets out.old from (0 ∷ 0 ∷ 0 ∷ [])) }
{
    if fits {
        return size;
    }
    put_none(out, from);
    3
}

// One more field: its line's start, how many bytes it has and whether its numbers fit.
fn settled(
    out: &mut [u8],
    w: Written,
    target: usize,
    start: usize,
    size: usize,
    fits: bool,
) -> Written
    requires { (w.end ≤ 65536) × (w.whole ≤ 65536) × (size ≤ 65536) × (length out.old < 65536) }
    ensures so_far { (xs : Pieces) (x : Piece) → SoFar xs out.old target w → x.start ≡ start → x.fits ≡ fits
        → size ≡ min (length x.whole) 65536 → (w.whole ≤ length out.old → Stands out.old w.end x.whole fits)
        → SoFar (xs ++ (x ∷ [])) out.new target result }
    ensures end_bound { (result.end ≤ 65536) × (result.whole ≤ 65536) }
{
    let end = past(w.end, closed(out, w.end, size, fits));
    let whole = past(w.whole, size);
    if (w.end..end).contains(&target) {
        Written {
            end,
            whole,
            at_target: Some((start, fits)),
        }
    } else {
        Written { end, whole, ..w }
    }
}

// A text may end where a statement is due and nothing is left.
#[tactic(auto, unfolding(text::specs::Lines::may_end))]
fn is_over(s: &[u8], q: usize, due: Due) -> bool
    requires { q ≤ length s.now }
    ensures { result ≡ may_end (due_of due) (drop q s.now) }
{
    due == Due::Statement && s.len() <= q
}

// It goes on while the text is not over.
fn lines_at(
    s: &[u8],
    p: usize,
    out: &mut [u8],
    first: Written,
    target: usize,
) -> Result<Written, usize>
    requires { (p ≤ length s.now) × (first.end ≤ 65536) × (first.whole ≤ 65536) × (length out.old < 65536) }
    ensures made_from { (x : Piece) → SoFar (x ∷ []) out.old target first
        → MadeFrom x s.now out.new target (read_lines (length s.now) (length (drop p s.now)) locks_due (drop p s.now)) result }
    ensures result_in_bounds { made_place result ≤ length s.now }
{
    let mut w = first;
    let mut q = p;
    let mut due = Due::Locks;
    while !is_over(s, q, due) {
        let x = line_behind(s, q, due, out, w.end, w.whole)?;
        w = settled(out, w, target, q, x.end, x.fits);
        q = x.place;
        due = x.kind;
    }
    Ok(w)
}

// Bytes of the header's field.
const HEADER_BYTES: usize = 19;

// The whole text.
pub(crate) fn text_at(s: &[u8], out: &mut [u8], target: usize) -> Result<Written, usize>
    requires { length out.old < 65536 }
    ensures makes { Makes s.now out.new target result }
    ensures result_in_bounds { made_place result ≤ length s.now }
{
    let h = head_at(s, out)?;
    let none = Written {
        end: 0,
        whole: 0,
        at_target: None,
    };
    let first = settled(out, none, target, h.start, HEADER_BYTES, h.fits);
    lines_at(s, h.place, out, first, target)
}
