// One end, or two, as `2..3`; and the lines of a word and such numbers.
//
// The text and a place in it stay apart, since each call has another place: a struct would be made anew at each. Whether an end is signed
// is a flag, as `one_end` of the rules' views takes it; a reader in its place would need a clause of its own in each contract here.
ghost use Rattle.std.specs.Prelude.{◌≡◌, ◌&&◌, ◌≤◌, ◌<◌, length, drop, ltb};
ghost use Rattle.text.specs.Words.{map_read, number};
ghost use Rattle.text.specs.Lines.{range, head_line};
ghost use Rattle.scan.specs.Reading.{Onward, OnwardStep, read_of, same, capped};
ghost use Rattle.lines.specs.Reading.{pair, pair_of, pair_place, one_end};
ghost use Rattle.lines.specs.Writing.{pair_fits, times_small};

use scan::{TOO_BIG, line_end_at, number_at, symbol_at, value_at, word_only_at};

// Two numbers that stand for what was read, and the place behind them.
#[derive(Clone, Copy)]
pub struct Pair {
    pub low: u64,
    pub high: u64,
    pub place: usize,
}

impl Pair {
    // Whether both fit four bytes.
    pub(crate) fn fits(self) -> bool
        ensures { result ≡ pair_fits self }
    {
        self.low < TOO_BIG && self.high < TOO_BIG
    }

    // Whether both fit two bytes.
    pub(crate) fn is_small(self) -> bool
        ensures { result ≡ times_small self }
    {
        self.low < 65536 && self.high < 65536
    }
}

// One number: with a minus, where the sign is read.
fn end_at(s: &[u8], p: usize, signed: bool) -> Result<(u64, usize), usize>
    requires { p ≤ length s.now }
    ensures result_value { read_of same s.now result ≡ one_end signed (drop p s.now) }
    ensures onward { OnwardStep s.now p result }
{
    if signed {
        value_at(s, p)
    } else {
        number_at(s, p)
    }
}

#[tactic(auto, unfolding(crate::proofs::Opened::readings))]
pub fn range_at(s: &[u8], p: usize, signed: bool) -> Result<Pair, usize>
    requires { p ≤ length s.now }
    ensures result_value { pair_of pair s.now result ≡ range (one_end signed) pair (drop p s.now) }
    ensures onward { Onward s.now p (pair_place result) }
{
    let (low, q) = end_at(s, p, signed)?;
    let r = symbol_at(s, q, b"..")?;
    let (high, place) = end_at(s, r, signed)?;
    Ok(Pair { low, high, place })
}

// A line of a word and a number.
#[tactic(auto, unfolding(crate::proofs::Opened::readings))]
pub fn number_line(s: &[u8], p: usize, word: &[u8]) -> Result<(u64, usize), usize>
    requires { (p ≤ length s.now) × (0 < length word.now) }
    ensures result_value { read_of same s.now result ≡ map_read capped (head_line word.now number (drop p s.now)) }
    ensures onward { OnwardStep s.now p result }
{
    let q = word_only_at(s, p, word)?;
    let (n, r) = number_at(s, q)?;
    let end = line_end_at(s, r)?;
    Ok((n, end))
}

// A line of a word and two numbers.
#[tactic(auto, unfolding(crate::proofs::Opened::readings))]
pub fn range_line(s: &[u8], p: usize, word: &[u8], signed: bool) -> Result<Pair, usize>
    requires { (p ≤ length s.now) × (0 < length word.now) }
    ensures result_value { pair_of pair s.now result ≡ head_line word.now (range (one_end signed) pair) (drop p s.now) }
    ensures onward { Onward s.now p (pair_place result) }
{
    let q = word_only_at(s, p, word)?;
    let x = range_at(s, q, signed)?;
    let place = line_end_at(s, x.place)?;
    Ok(Pair { place, ..x })
}
