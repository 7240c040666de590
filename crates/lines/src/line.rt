// One line of a text: its field is written, and what is due behind it is given.
//
// The text and a place in it, and the output and a place in it, stay apart, since each call has other places: a struct would be made anew
// at each. A tag is the sheet's own byte, written as it is: an enum would only be turned back into it.
ghost use Rattle.std.specs.Prelude.{◌≡◌, ◌≤◌, ◌<◌, length, drop};
ghost use Rattle.rules.specs.Interval.{Interval, interval};
ghost use Rattle.rules.specs.Program.{halt};
ghost use Rattle.text.specs.Words.{bytes, then_read, map_read, spaces, number, signed, line_end};
ghost use Rattle.text.specs.Lines.{Line, locks_line, thread_line, statement_line, due_after};
ghost use Rattle.text.specs.Lines.{head_line, word_only, range, line_here, read_line};
ghost use Rattle.scan.specs.Writing.{OnwardBuilt};
ghost use Rattle.lines.specs.Writing.{Lines, due_of, RangeTag};

use crate::fields::{put_front, put_one, put_pair, put_small_field};
use crate::ranges::{number_line, range_line};
use crate::registers::registers_ahead;
use crate::timed::timed_at;
use scan::{Built, is_digit, line_end_at, past, spaces_end, word_only_at};

// What is due: `locks`; `var` or `thread`; `reg` or a statement; a statement, `thread` or the text's end.
#[derive(Clone, Copy, PartialEq, Eq)]
pub enum Due {
    Locks,
    Var,
    Reg,
    Statement,
}

// ---- each kind of line, from its first byte on: its field is what is built, and its kind is what is due behind it

// `locks 1`
#[tactic(auto, unfolding(crate::proofs::Opened::readings))]
fn locks_at(s: &[u8], q: usize, out: &mut [u8], at: usize) -> Result<Built<Due>, usize>
    requires { (q ≤ length s.now) × (at ≤ 65536) }
    ensures lines { Lines s.now out.old at out.new (map_read locks_line (head_line (bytes "locks") number (drop q s.now))) result }
    ensures onward_field { OnwardBuilt s.now q at result }
{
    let (n, place) = number_line(s, q, b"locks")?;
    put_small_field(out, at, 3, n);
    Ok(Built {
        kind: Due::Var,
        place,
        end: past(at, 4),
        fits: n < 256,
    })
}

// `var -1..1`, `reg 0..9`
#[tactic(auto, unfolding(crate::proofs::Opened::readings))]
fn values_at(
    s: &[u8],
    q: usize,
    word: &[u8],
    tag: u8,
    due: Due,
    out: &mut [u8],
    at: usize,
) -> Result<Built<Due>, usize>
    requires { (q ≤ length s.now) × (0 < length word.now) × (at ≤ 65536) }
    ensures lines { (f : Interval → Line) → RangeTag tag f → ((i : Interval) → due_of due ≡ due_after (f i))
        → Lines s.now out.old at out.new (map_read f (head_line word.now (range signed interval) (drop q s.now))) result }
    ensures onward_field { OnwardBuilt s.now q at result }
{
    let x = range_line(s, q, word, true)?;
    put_pair(out, at, tag, x);
    Ok(Built {
        kind: due,
        place: x.place,
        end: past(at, 11),
        fits: x.fits(),
    })
}

// `thread`
#[tactic(auto, unfolding(crate::proofs::Opened::readings))]
fn thread_at(s: &[u8], q: usize, out: &mut [u8], at: usize) -> Result<Built<Due>, usize>
    requires { (q ≤ length s.now) × (at ≤ 65536) }
    ensures lines { Lines s.now out.old at out.new
        (then_read (word_only (bytes "thread") (drop q s.now)) (λ _ t. line_end thread_line t)) result }
    ensures onward_field { OnwardBuilt s.now q at result }
{
    let end = word_only_at(s, q, b"thread")?;
    let place = line_end_at(s, end)?;
    put_one(out, at, 4, registers_ahead(s, place));
    Ok(Built {
        kind: Due::Reg,
        place,
        end: past(at, 4),
        fits: true,
    })
}

// `halt`
#[tactic(auto, unfolding(crate::proofs::Opened::readings))]
fn halt_at(s: &[u8], q: usize, out: &mut [u8], at: usize) -> Result<Built<Due>, usize>
    requires { (q ≤ length s.now) × (at ≤ 65536) }
    ensures lines { Lines s.now out.old at out.new
        (then_read (word_only (bytes "halt") (drop q s.now)) (λ _ t. line_end (statement_line 0 0 halt) t)) result }
    ensures onward_field { OnwardBuilt s.now q at result }
{
    let end = word_only_at(s, q, b"halt")?;
    let place = line_end_at(s, end)?;
    put_front(out, at, 5, 0, 0, 0);
    Ok(Built {
        kind: Due::Statement,
        place,
        end: past(at, 8),
        fits: true,
    })
}

// ---- which it is

fn opened_at(s: &[u8], q: usize, due: Due, out: &mut [u8], at: usize) -> Result<Built<Due>, usize>
    requires { (q < length s.now) × (spaces (drop q s.now) ≡ drop q s.now) × (at ≤ 65536) × (length out.old < 65536) }
    ensures lines { Lines s.now out.old at out.new (then_read (line_here (due_of due) (drop q s.now)) line_end) result }
    ensures onward_field { OnwardBuilt s.now q at result }
{
    let b = s[q];
    let digit = is_digit(b);
    match due {
        Due::Locks => locks_at(s, q, out, at),
        Due::Var if b == b'v' => values_at(s, q, b"var", 2, Due::Var, out, at),
        Due::Var => thread_at(s, q, out, at),
        Due::Reg if digit => timed_at(s, q, out, at),
        Due::Reg if b == b'r' => values_at(s, q, b"reg", 5, Due::Reg, out, at),
        Due::Reg => halt_at(s, q, out, at),
        Due::Statement if digit => timed_at(s, q, out, at),
        Due::Statement if b == b't' => thread_at(s, q, out, at),
        Due::Statement => halt_at(s, q, out, at),
    }
}

pub fn line_at(s: &[u8], p: usize, due: Due, out: &mut [u8], at: usize) -> Result<Built<Due>, usize>
    requires { (p ≤ length s.now) × (at ≤ 65536) × (length out.old < 65536) }
    ensures lines { Lines s.now out.old at out.new (read_line (due_of due) (drop p s.now)) result }
    ensures onward_field { OnwardBuilt s.now p at result }
{
    let q = spaces_end(s, p);
    if s.len() <= q {
        return Err(q);
    }
    opened_at(s, q, due, out, at)
}
