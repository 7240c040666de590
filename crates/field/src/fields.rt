// Fields: a byte, a length, a field of any tag, and the fields of tags 1, 3 and 4.
// Every function is given the whole sheet s, or another file of fields, and the place of a field in it.
#![tactic(auto, unfolding(crate::proofs::Opened::fields))]

ghost use Rattle.std.specs.Prelude.{◌≡◌, true, ◌&&◌, ◌+◌, ◌≤◌, ◌<◌, leb, length, OnOk};
ghost use Rattle.rules.specs.Constants.{most_registers};
ghost use Rattle.rules.specs.Refusal.{short};
ghost use Rattle.rules.specs.Format.{got, need, byte, num16, has_head, has_body, due, sized, header_fits, read_locks};
ghost use Rattle.field.specs.Decoded.{body_end};
ghost use Rattle.field.specs.Outcome.{check_of, end_of};
ghost use Rattle.field.specs.Header.{header_of, header_in, header_at};

use crate::heads::{field_at, has_head};
use crate::outcome::need;
use crate::tags::{HEADER, LOCKS};
use crate::ticks::{Time, time32_at};
use expression::{num16_at, num32_at};
use refusal::{Fault, Refusal};

// Locks, and a thread's registers: at most 8.
const MOST_NAMES: usize = 8;

pub const GREATEST_LIMIT: Time = Time(1000000);

pub const GREATEST_BUDGET: u32 = 10000000;

// The byte at p, or 0 past the sheet's end.
pub fn byte_at(s: &[u8], p: usize) -> usize
    ensures { (result ≡ byte s.now p) × (result < 256) }
{
    if p < s.len() { usize::from(s[p]) } else { 0 }
}

// ---- the length of a field, and its tag

// Of the body behind the field's head.
pub fn length_at(s: &[u8], at: usize) -> usize
    requires { at + 3 ≤ length s.now }
    ensures { (result ≡ num16 s.now (at + 1)) × (result < 65536) }
{
    usize::from(num16_at(s, at + 1))
}

pub(crate) fn has_body(s: &[u8], at: usize) -> bool
    requires { at + 3 ≤ length s.now }
    ensures { result ≡ has_body s.now at }
{
    at + 3 + length_at(s, at) <= s.len()
}

// A whole field stands at a place, of whichever tag.
pub fn whole_field_at(s: &[u8], at: usize) -> bool
    ensures { result ≡ (has_head s.now at && has_body s.now at) }
{
    has_head(s, at) && has_body(s, at)
}

// The field at a place has the tag that is due.
pub(crate) fn due_at(s: &[u8], at: usize, tag: u8) -> Result<(), Fault>
    ensures due { result ≡ check_of (due tag s.now at (got at at)) }
    ensures head { OnOk result (at + 3 ≤ length s.now) }
{
    let f = field_at(s, at)?;
    need(f.tag == tag, Refusal::OutOfTurn, at)
}

// A field whose body is to be n bytes long: the body first, then its length.
pub(crate) fn fixed_end(s: &[u8], at: usize, n: usize) -> Result<usize, Fault>
    ensures end { result ≡ end_of (sized s.now at n true n) }
    ensures inside { OnOk result (at + 3 + n ≤ length s.now) }
{
    let f = field_at(s, at)?;
    need(f.body + f.length <= s.len(), Refusal::Short, at)?;
    need(f.length == n, Refusal::BadLength, at)?;
    Ok(f.body + n)
}

// ---- a field of any tag: the place behind it

// A field whose body is to be n bytes long.
pub fn fixed_field_end(s: &[u8], at: usize, tag: u8, n: u16) -> Result<usize, Fault>
    ensures { result ≡ end_of (due tag s.now at (sized s.now at n true n)) }
{
    due_at(s, at, tag)?;
    fixed_end(s, at, usize::from(n))
}

// A field whose body may have any length.
pub fn any_field_end(s: &[u8], at: usize, tag: u8) -> Result<usize, Fault>
    ensures { result ≡ end_of (due tag s.now at (need (has_body s.now at) short at (got at (body_end s.now at)))) }
{
    due_at(s, at, tag)?;
    let end = at + 3 + length_at(s, at);
    need(end <= s.len(), Refusal::Short, at)?;
    Ok(end)
}

// ---- tag 1

// The header's numbers.
#[derive(Clone, Copy)]
pub struct Header {
    pub limit: Time,
    pub budget: u32,
    pub label_low: Time,
    pub label_high: Time,
}

// Those in the body of the field at a place.
pub fn header_at(s: &[u8], at: usize) -> Header
    requires { at + 19 ≤ length s.now }
    ensures { result ≡ header_of (header_in s.now at) }
{
    Header {
        limit: time32_at(s, at + 3),
        budget: num32_at(s, at + 7),
        label_low: time32_at(s, at + 11),
        label_high: time32_at(s, at + 15),
    }
}

impl Header {
    // Each number in its range.
    fn fits(self) -> bool
        ensures { result ≡ header_fits self.limit.0 self.budget self.label_low.0 self.label_high.0 }
    {
        1 <= self.limit.0
            && self.limit <= GREATEST_LIMIT
            && 1 <= self.budget
            && self.budget <= GREATEST_BUDGET
            && self.label_low <= self.label_high
            && self.label_high <= self.limit
    }
}

pub fn header_end(s: &[u8], at: usize) -> Result<usize, Fault>
    ensures { result ≡ end_of (header_at s.now at) }
{
    due_at(s, at, HEADER)?;
    let end = fixed_end(s, at, 16)?;
    need(header_at(s, at).fits(), Refusal::OffRange, at)?;
    Ok(end)
}

// ---- tags 3 and 4: one byte, a number of names

pub fn locks_end(s: &[u8], at: usize) -> Result<usize, Fault>
    ensures { result ≡ end_of (read_locks s.now at) }
{
    due_at(s, at, LOCKS)?;
    open_end(s, at)
}

// The field that opens a thread, whose tag is known; behind another tag, the sheet's locks.
pub fn open_end(s: &[u8], at: usize) -> Result<usize, Fault>
    ensures end { result ≡ end_of (sized s.now at 1 (leb (byte s.now (at + 3)) most_registers) (byte s.now (at + 3))) }
    ensures inside { OnOk result (at + 4 ≤ length s.now) }
{
    let end = fixed_end(s, at, 1)?;
    need(byte_at(s, at + 3) <= MOST_NAMES, Refusal::OffRange, at)?;
    Ok(end)
}
