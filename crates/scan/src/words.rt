// Words and numbers: every function takes the text s and a place p in it, and reads what stands from there on. The two stay apart, since
// each call has another place: a struct would be made anew at each.
ghost use Rattle.std.specs.Prelude.{◌≡◌, ℕ, ◌+◌, ◌-◌, ◌*◌, ◌≤◌, ◌<◌, length, drop, pos};
ghost use Rattle.rules.specs.Format.{Bytes};
ghost use Rattle.text.specs.Words.{Read, map_read, is_digit, is_letter, spaces, apart, numeral, digits, number, negative, symbol};
ghost use Rattle.scan.specs.Reading.{read_of, same, passed, Onward, OnwardStep, OnwardPassed, place_of, capped, value_code, word_here};

// A number past every field's, 2^32, stands for one that is too big: `capped` and `value_code` of the views that the clauses name are
// numbers too.
pub const TOO_BIG: u64 = 4294967296;

#[tactic(auto, unfolding(text::specs::Words::is_digit))]
pub fn is_digit(b: u8) -> bool
    ensures { result ≡ is_digit b }
{
    b.is_ascii_digit()
}

#[tactic(auto, unfolding(text::specs::Words::is_letter))]
fn is_letter(b: u8) -> bool
    ensures { result ≡ is_letter b }
{
    b.is_ascii_lowercase()
}

// The place behind spaces. `position` was tried: its goal by hand was longer than the loop.
#[tactic(auto, using(crate::proofs::WordLaws::places), unfolding(text::specs::Words::spaces))]
pub fn spaces_end(s: &[u8], p: usize) -> usize
    requires { p ≤ length s.now }
    ensures reads { drop result s.now ≡ spaces (drop p s.now) }
    ensures onward { Onward s.now p result }
{
    for q in p..s.len() {
        if s[q] != b' ' {
            return q;
        }
    }
    s.len()
}

// Behind a word of letters or digits no letter or digit stands: the same place.
#[tactic(auto, using(crate::proofs::WordLaws::places), unfolding(text::specs::Words::apart))]
pub(crate) fn apart_at(s: &[u8], p: usize) -> Result<usize, usize>
    requires { p ≤ length s.now }
    ensures reads { passed s.now result ≡ apart tt (drop p s.now) }
    ensures onward { OnwardPassed s.now p result }
{
    match s.get(p) {
        Some(b) if is_digit(*b) || is_letter(*b) => Err(p),
        _ => Ok(p),
    }
}

// One more digit, up to a bound.
fn grown(v: u64, b: u8) -> u64
    requires { v ≤ 4294967296 }
    ensures { result ≡ capped (v * 10 + (b - 48)) }
{
    (v * 10 + u64::from(b.saturating_sub(b'0'))).min(TOO_BIG)
}

// The digits that follow a number read so far. The number grows as the place goes on, and both are given.
#[tactic(auto, using(crate::proofs::WordLaws::places), unfolding(crate::proofs::Opened::numbers))]
fn numeral_at(s: &[u8], v: u64, p: usize) -> Result<(u64, usize), usize>
    requires { (p ≤ length s.now) × (v ≤ 4294967296) }
    ensures reads { (n : ℕ) → v ≡ capped n → read_of same s.now result ≡ map_read capped (numeral n (drop p s.now)) }
    ensures onward { OnwardStep s.now p result }
{
    let mut w = v;
    for q in p..s.len() {
        if !is_digit(s[q]) {
            let end = apart_at(s, q)?;
            return Ok((w, end));
        }
        w = grown(w, s[q]);
    }
    Ok((w, s.len()))
}

// A number, right here.
#[tactic(auto, using(crate::proofs::WordLaws::places), unfolding(crate::proofs::Opened::numbers))]
pub fn digits_at(s: &[u8], p: usize) -> Result<(u64, usize), usize>
    requires { p ≤ length s.now }
    ensures reads { read_of same s.now result ≡ map_read capped (digits (drop p s.now)) }
    ensures onward { OnwardStep s.now p result }
{
    match s.get(p) {
        Some(b) if is_digit(*b) => numeral_at(s, grown(0, *b), p + 1),
        _ => Err(p),
    }
}

#[tactic(auto, unfolding(text::specs::Words::number))]
pub fn number_at(s: &[u8], p: usize) -> Result<(u64, usize), usize>
    requires { p ≤ length s.now }
    ensures reads { read_of same s.now result ≡ map_read capped (number (drop p s.now)) }
    ensures onward { OnwardStep s.now p result }
{
    digits_at(s, spaces_end(s, p))
}

// A number's 32 bits as a value, or the bound.
#[tactic(auto, using(crate::proofs::WordLaws::values))]
fn positive_code(v: u64) -> u64
    ensures code { (n : ℕ) → v ≡ capped n → result ≡ value_code (pos n) }
    ensures bound { result ≤ 4294967296 }
{
    if v < 2147483648 { v } else { TOO_BIG }
}

#[tactic(auto, using(crate::proofs::WordLaws::values))]
fn negative_code(v: u64) -> u64
    ensures code { (n : ℕ) → v ≡ capped n → result ≡ value_code (negative n) }
    ensures bound { result ≤ 4294967296 }
{
    match v {
        0 => 0,
        1..=2147483648 => TOO_BIG - v,
        _ => TOO_BIG,
    }
}

// A number that was read, as a value.
#[tactic(auto, unfolding(text::specs::Words::map_read))]
pub fn positive(x: Result<(u64, usize), usize>) -> Result<(u64, usize), usize>
    ensures reads { (s : Bytes) (g : Read ℕ) → read_of same s x ≡ map_read capped g
        → read_of same s result ≡ map_read (λ n. value_code (pos n)) g }
    ensures place { place_of result ≡ place_of x }
{
    x.map(|(v, q)| (positive_code(v), q))
}

// A number that was read behind a minus, as a value.
#[tactic(auto, unfolding(text::specs::Words::map_read))]
pub fn negated(x: Result<(u64, usize), usize>) -> Result<(u64, usize), usize>
    ensures reads { (s : Bytes) (g : Read ℕ) → read_of same s x ≡ map_read capped g
        → read_of same s result ≡ map_read (λ n. value_code (negative n)) g }
    ensures place { place_of result ≡ place_of x }
{
    x.map(|(v, q)| (negative_code(v), q))
}

// One word, right here: the place behind it. `starts_with` does not say at which byte it stops.
pub(crate) fn word_at(s: &[u8], p: usize, w: &[u8]) -> Result<usize, usize>
    requires { (p ≤ length s.now) × (0 < length w.now) }
    ensures reads { passed s.now result ≡ word_here w.now (drop p s.now) }
    ensures onward { OnwardPassed s.now p result }
{
    for (k, b) in w.iter().enumerate() {
        if s.get(p + k) != Some(b) {
            return Err(p + k);
        }
    }
    Ok(p + w.len())
}

// One word of other signs: the place behind it.
#[tactic(auto, unfolding(text::specs::Words::symbol))]
pub fn symbol_at(s: &[u8], p: usize, w: &[u8]) -> Result<usize, usize>
    requires { (p ≤ length s.now) × (0 < length w.now) }
    ensures reads { passed s.now result ≡ symbol w.now (drop p s.now) }
    ensures onward { OnwardPassed s.now p result }
{
    word_at(s, spaces_end(s, p), w)
}
