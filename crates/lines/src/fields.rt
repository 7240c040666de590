// Bytes of fields. What has no room is not written.
//
// The output and a place in it stay apart, since each call has another place: a struct would be made anew at each. Tags and codes are the
// sheet's own bytes, written as they are: an enum would only be turned back into them.
ghost use Rattle.std.specs.Prelude.{◌≡◌, [], ◌∷◌, ◌≤◌, ◌<◌, ltb, set, if◌then◌else◌};
ghost use Rattle.std.proofs.lemmas.List.Edits.{sets};
ghost use Rattle.rules.specs.Encoding.{two};
ghost use Rattle.lines.specs.Writing.{range_bytes, field_of_one, front_bytes, put_pair};

use crate::ranges::Pair;
use scan::{put, put_four, put_two};

// A tag and its length, of two bytes.
pub fn put_head(out: &mut [u8], at: usize, tag: u8, size: u64)
    requires { (at ≤ 65536) × (size < 65536) }
    ensures { out.new ≡ sets out.old at (tag ∷ two size) }
{
    put(out, at, tag);
    put_two(out, at + 1, size);
}

// The field of one byte.
pub(crate) fn put_one(out: &mut [u8], at: usize, tag: u8, b: u8)
    requires { at ≤ 65536 }
    ensures { out.new ≡ sets out.old at (field_of_one tag b) }
{
    put_head(out, at, tag, 1);
    put(out, at + 3, b);
}

// The field of two values.
fn put_range(out: &mut [u8], at: usize, tag: u8, a: u64, b: u64)
    requires { (at ≤ 65536) × (a < 4294967296) × (b < 4294967296) }
    ensures { out.new ≡ sets out.old at (range_bytes tag a b) }
{
    put_head(out, at, tag, 8);
    put_four(out, at + 3, a);
    put_four(out, at + 7, b);
}

// A statement's bytes before its operands: tag, length, times, code.
pub(crate) fn put_front(out: &mut [u8], at: usize, size: u64, a: u64, b: u64, code: u8)
    requires { (at ≤ 65536) × (size < 65536) × (a < 65536) × (b < 65536) }
    ensures { out.new ≡ sets out.old at (front_bytes size a b code) }
{
    put_head(out, at, 6, size);
    put_two(out, at + 3, a);
    put_two(out, at + 5, b);
    put(out, at + 7, code);
}

// Three zeros: no tag is 0.
pub fn put_none(out: &mut [u8], at: usize)
    requires { at ≤ 65536 }
    ensures { out.new ≡ sets out.old at (0 ∷ 0 ∷ 0 ∷ []) }
{
    put_head(out, at, 0, 0);
}

// ---- of what was read, where it fits

pub(crate) fn put_small(out: &mut [u8], at: usize, v: u64)
    ensures { out.new ≡ (if ltb v 256 then set out.old at v else out.old) }
{
    if let Ok(b) = u8::try_from(v) {
        put(out, at, b);
    }
}

pub(crate) fn put_small_field(out: &mut [u8], at: usize, tag: u8, v: u64)
    requires { at ≤ 65536 }
    ensures { out.new ≡ (if ltb v 256 then sets out.old at (field_of_one tag v) else out.old) }
{
    if let Ok(b) = u8::try_from(v) {
        put_one(out, at, tag, b);
    }
}

pub(crate) fn put_pair(out: &mut [u8], at: usize, tag: u8, x: Pair)
    requires { at ≤ 65536 }
    ensures { out.new ≡ put_pair out.old at tag x }
{
    if x.fits() {
        put_range(out, at, tag, x.low, x.high);
    }
}
