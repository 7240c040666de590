// The walk over the fields of a sheet, which writes the mended sheet and the list of its changes. What does not fit is not written,
// as in `writing`.
// That the sheet is not too long, and that a field ends inside it, are the caller's own tests.
// `place as u32`: std has no `From` for it, and `try_from` would give an `Err` that cannot come.
ghost use Rattle.std.specs.Prelude.{◌≡◌, [], ◌∷◌, ◌+◌, ◌*◌, ◌≤◌, ◌<◌, ◌^◌, length, take, IfSome};
ghost use Rattle.rules.specs.Constants.{longest_sheet};
ghost use Rattle.writing.specs.Out.{Writes};
ghost use Rattle.mended.specs.Mend as Rule;
ghost use Rattle.mend.specs.Shape.{kind_number, last_of, no_ends, Puts};

use crate::fields::{behind, end_size, halt_added, is_reversed, low_end, open_after};
use field::whole_field_at;
use writing::{put_bytes, put_element};

// The bytes of a halt: tag 6, length 5, times 0 and 0, code 0.
const HALT: [u8; 8] = [6, 0, 5, 0, 0, 0, 0, 0];

// The places behind what was written, in the mended sheet and in the list.
#[derive(Clone, Copy)]
pub(crate) struct Ends {
    pub bytes: usize,
    pub numbers: usize,
}

// ---- the list

// What was changed at a field.
#[derive(Clone, Copy)]
enum Kind {
    Exchanged,
    HaltAdded,
}

impl From<Kind> for u32 {
    ghost from_gives = { λ k n. n ≡ kind_number k };

    fn from(kind: Kind) -> u32 {
        match kind {
            Kind::Exchanged => 1,
            Kind::HaltAdded => 2,
        }
    }
}

// A change: its kind, and the place of its field.
fn put_change(list: &mut [u32], at: usize, kind: Kind, place: usize) -> usize
    requires { place < 2 ^ 32 }
    ensures { Writes (kind_number kind ∷ place ∷ []) list.old at list.new result }
{
    let second = put_element(list, at, u32::from(kind));
    put_element(list, second, place as u32)
}

// ---- a field

// The bytes from one place up to another, with two ends in them exchanged.
fn put_exchanged(
    s: &[u8],
    at: usize,
    end: usize,
    low: usize,
    size: usize,
    out: &mut [u8],
    from: usize,
) -> usize
    requires { (at ≤ low) × (low + size + size ≤ end) × (end ≤ length s.now) }
    ensures { Writes (Rule.exchange s.now at end low size) out.old from out.new result }
{
    let high = low + size;
    let second = put_bytes(out, from, &s[at..low]);
    let third = put_bytes(out, second, &s[high..high + size]);
    let fourth = put_bytes(out, third, &s[low..high]);
    put_bytes(out, fourth, &s[high + size..end])
}

fn put_field(s: &[u8], at: usize, out: &mut [u8], list: &mut [u32], ends: Ends) -> Ends
    requires { (Rule.behind s.now at ≤ length s.now) × (length s.now ≤ longest_sheet) }
    ensures { Puts (Rule.mended_field s.now at) out.old list.old ends out.new list.new result }
{
    let end = behind(s, at);
    if is_reversed(s, at) {
        let tag = s[at];
        let low = at + low_end(tag);
        return Ends {
            bytes: put_exchanged(s, at, end, low, end_size(tag), out, ends.bytes),
            numbers: put_change(list, ends.numbers, Kind::Exchanged, at),
        };
    }
    Ends {
        bytes: put_bytes(out, ends.bytes, &s[at..end]),
        ..ends
    }
}

// ---- a halt

// A halt where a thread closes, if the statement before it wants one.
fn put_halt(
    s: &[u8],
    at: usize,
    last: Option<usize>,
    out: &mut [u8],
    list: &mut [u32],
    ends: Ends,
) -> Ends
    requires { IfSome last (λ p. p < 2 ^ 32) }
    ensures { Puts (Rule.added (Rule.closes_at s.now at) (last_of last)) out.old list.old ends out.new list.new result }
{
    let Some(place) = halt_added(s, at, last) else {
        return ends;
    };
    Ends {
        bytes: put_bytes(out, ends.bytes, &HALT),
        numbers: put_change(list, ends.numbers, Kind::HaltAdded, place),
    }
}

// ---- the sheet

// Writes the mended sheet and the list of its changes. Where there is room for the longest one, the mended sheet stands at the front.
#[tactic(auto, using(crate::proofs::writer::Laws::walk_laws))]
pub(crate) fn put_fields(s: &[u8], out: &mut [u8], list: &mut [u32]) -> Ends
    requires { length s.now ≤ longest_sheet }
    ensures puts { Puts (Rule.mended s.now) out.old list.old no_ends out.new list.new result }
    ensures front { 2 * longest_sheet ≤ length out.old
        → (result.bytes ≤ length out.new) × (take result.bytes out.new ≡ (Rule.mended s.now).bytes) }
{
    let mut ends = Ends {
        bytes: 0,
        numbers: 0,
    };
    let mut last = None;
    let mut at = 0;
    // a `loop`: where the next field stands is read from this one
    loop {
        ends = put_halt(s, at, last, out, list, ends);
        if !whole_field_at(s, at) {
            return Ends {
                bytes: put_bytes(out, ends.bytes, &s[at..]),
                ..ends
            };
        }
        ends = put_field(s, at, out, list, ends);
        last = open_after(s, at);
        at = behind(s, at);
    }
}
