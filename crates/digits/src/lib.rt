// Numbers that a program's arguments write in decimal digits.
#![tactic(auto)]

ghost use Rattle.std.specs.Prelude.{◌≡◌, ◌≤◌};
ghost use Rattle.digits.specs.Digits.{top, cut, with_digit, number_in};

// Numbers from here on are not told apart: this one stands for them all.
const TOP: u64 = 65536;

// A number with one digit more. `scan` has such a function too, which takes any byte, and has another bound.
#[tactic(auto, unfolding(crate::specs::Digits::cut))]
fn with_digit(n: u64, d: u8) -> u64
    requires { (n ≤ top) × (48 ≤ d) × (d ≤ 57) }
    ensures { result ≡ cut (with_digit n d) }
{
    (n * 10 + u64::from(d - b'0')).min(TOP)
}

// The number that a word of digits writes, none where it is empty or has another byte; leading zeros do not count.
#[tactic(auto, using(crate::proofs::Laws::word_laws))]
pub fn number_in(word: &[u8]) -> Option<u64>
    ensures { result ≡ number_in word.now }
{
    if word.is_empty() {
        return None;
    }
    let mut n = 0;
    for &d in word {
        if !d.is_ascii_digit() {
            return None;
        }
        n = with_digit(n, d);
    }
    Some(n)
}
