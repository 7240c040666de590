// A whole field, of whichever tag: the place behind it, whether its ends are reversed, and whether it wants a halt behind it.
// That the field ends inside the sheet is the caller's own test: both walks stop where `whole_field_at` says no.
ghost use Rattle.std.specs.Prelude.{◌≡◌, ◌≤◌, ◌<◌, length, IfSome};
ghost use Rattle.mended.specs.Mend as Rule;
ghost use Rattle.mend.specs.Shape.{last_of, added_to};

use expression::{int32_at, num16_at, num32_at};
use field::tags::{HEADER, REGISTER, STATEMENT, THREAD, VARIABLE};
use field::{has_head, length_at};

const HALT_CODE: u8 = 0;

pub(crate) fn behind(s: &[u8], at: usize) -> usize
    requires { Rule.behind s.now at ≤ length s.now }
    ensures { result ≡ Rule.behind s.now at }
{
    at + 3 + length_at(s, at)
}

// ---- ends

// The low end is above the high one.
#[tactic(auto, unfolding(mended::specs::Mend::reversed))]
pub(crate) fn is_reversed(s: &[u8], at: usize) -> bool
    requires { Rule.behind s.now at ≤ length s.now }
    ensures { result ≡ Rule.reversed s.now at }
{
    let n = length_at(s, at);
    match s[at] {
        HEADER => n == 16 && num32_at(s, at + 15) < num32_at(s, at + 11),
        VARIABLE | REGISTER => n == 8 && int32_at(s, at + 7) < int32_at(s, at + 3),
        STATEMENT => 5 <= n && num16_at(s, at + 5) < num16_at(s, at + 3),
        _ => false,
    }
}

// Where a field of a tag has its low end, and how many bytes each end has.
pub(crate) fn low_end(tag: u8) -> usize
    ensures { result ≡ Rule.low_end tag }
{
    if tag == HEADER { 11 } else { 3 }
}

pub(crate) fn end_size(tag: u8) -> usize
    ensures { result ≡ Rule.end_size tag }
{
    if tag == STATEMENT { 2 } else { 4 }
}

// ---- halts

// The statement at a place, where it is another than halt: it wants a halt behind it if its thread closes there.
#[tactic(auto, unfolding(mended::specs::Mend::open_after))]
pub(crate) fn open_after(s: &[u8], at: usize) -> Option<usize>
    requires { Rule.behind s.now at ≤ length s.now }
    ensures last { last_of result ≡ Rule.open_after s.now at }
    ensures inside { IfSome result (λ p. p < length s.now) }
{
    let wants_halt = s[at] == STATEMENT && 5 <= length_at(s, at) && s[at + 7] != HALT_CODE;
    wants_halt.then_some(at)
}

// A thread closes at a place: another's header stands there, or no bytes remain.
#[tactic(auto, unfolding(mended::specs::Mend::closes_at))]
fn closes_at(s: &[u8], at: usize) -> bool
    ensures { result ≡ Rule.closes_at s.now at }
{
    s.len() <= at || has_head(s, at) && s[at] == THREAD
}

// The statement that gets a halt at a place: the one before it, where it wants one and its thread closes there. Where none is wanted,
// the place is not looked at.
pub(crate) fn halt_added(s: &[u8], at: usize, last: Option<usize>) -> Option<usize>
    ensures { result ≡ added_to (Rule.closes_at s.now at) last }
{
    let place = last?;
    closes_at(s, at).then_some(place)
}
