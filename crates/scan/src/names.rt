// What the words and numbers make up: names, words of letters, values, and a line's end. The text and the place stay apart, since each call
// has another place: a struct would be made anew at each.
ghost use Rattle.std.specs.Prelude.{◌≡◌, ◌≤◌, ◌<◌, length, drop};
ghost use Rattle.text.specs.Words.{map_read, name, signed, line_end};
ghost use Rattle.text.specs.Lines.{word_only};
ghost use Rattle.scan.specs.Reading.{read_of, same, passed, OnwardStep, OnwardPassed, capped, value_code};

use crate::words::{apart_at, digits_at, negated, number_at, positive, spaces_end, symbol_at};

// A name: its letter and its number.
#[tactic(auto, unfolding(crate::proofs::Opened::names))]
pub fn name_at(s: &[u8], p: usize, w: &[u8]) -> Result<(u64, usize), usize>
    requires { (p ≤ length s.now) × (0 < length w.now) }
    ensures reads { read_of same s.now result ≡ map_read capped (name w.now (drop p s.now)) }
    ensures onward { OnwardStep s.now p result }
{
    let q = symbol_at(s, p, w)?;
    digits_at(s, q)
}

// The one word of letters that may stand here: the place behind it.
#[tactic(auto, unfolding(crate::proofs::Opened::only_words))]
pub fn word_only_at(s: &[u8], p: usize, w: &[u8]) -> Result<usize, usize>
    requires { (p ≤ length s.now) × (0 < length w.now) }
    ensures reads { passed s.now result ≡ word_only w.now (drop p s.now) }
    ensures onward { OnwardPassed s.now p result }
{
    let q = symbol_at(s, p, w)?;
    apart_at(s, q)
}

// A number that may have a minus before it, as 32 bits or the bound.
pub fn value_at(s: &[u8], p: usize) -> Result<(u64, usize), usize>
    requires { p ≤ length s.now }
    ensures reads { read_of same s.now result ≡ map_read value_code (signed (drop p s.now)) }
    ensures onward { OnwardStep s.now p result }
{
    let q = spaces_end(s, p);
    match s.get(q) {
        Some(b'-') => negated(number_at(s, q + 1)),
        _ => positive(digits_at(s, q)),
    }
}

// The place behind the end of a line.
#[tactic(auto, using(crate::proofs::WordLaws::places), unfolding(crate::proofs::Opened::line_ends))]
pub fn line_end_at(s: &[u8], p: usize) -> Result<usize, usize>
    requires { p ≤ length s.now }
    ensures reads { passed s.now result ≡ line_end tt (drop p s.now) }
    ensures onward { OnwardPassed s.now p result }
{
    let q = spaces_end(s, p);
    match s.get(q) {
        None => Ok(q),
        Some(b'\n') => Ok(q + 1),
        Some(_) => Err(q),
    }
}
