// What a statement does: its operands are written, and its code is given.
//
// The text and a place in it, and the output and a place in it, stay apart, since each call has other places: a struct would be made anew
// at each. A statement's code is the sheet's own byte, written as it is: an enum would only be turned back into it.
ghost use Rattle.std.specs.Prelude.{◌≡◌, ℕ, ◌≤◌, ◌<◌, length, drop, get_or};
ghost use Rattle.rules.specs.Format.{Bytes};
ghost use Rattle.rules.specs.Program.{Action, skip};
ghost use Rattle.text.specs.Words.{bytes, took, then_read, map_read, spaces, name};
ghost use Rattle.text.specs.Lines.{word_only, assignment, jump, transfer, action_here};
ghost use Rattle.scan.specs.Writing.{OnwardBuilt};
ghost use Rattle.lines.specs.Writing.{Acts, OneName, TwoNames, ActionWord, word_of, action_of};

use crate::fields::put_small;
use notation::{sum_at, test_at};
use scan::{Built, name_at, number_at, past, symbol_at, word_only_at};

// ---- the statements: of each, its code is the kind, and its operands are what is built

// `r0 := ..`
#[tactic(auto, unfolding(crate::proofs::Opened::readings))]
fn assignment_at(s: &[u8], q: usize, out: &mut [u8], at: usize) -> Result<Built<u8>, usize>
    requires { (q ≤ length s.now) × (at ≤ 65536) × (length out.old < 65536) }
    ensures acts { Acts s.now out.old at out.new (assignment (drop q s.now)) result }
    ensures onward { OnwardBuilt s.now q at result }
{
    let (n, joint) = name_at(s, q, b"r")?;
    let right = symbol_at(s, joint, b":=")?;
    let x = sum_at(s, right, out, past(at, 1))?;
    put_small(out, at, n);
    Ok(Built {
        kind: 2,
        place: x.place,
        end: x.end,
        fits: n < 256 && x.fits,
    })
}

// `if .. goto 2`
#[tactic(auto, unfolding(crate::proofs::Opened::readings))]
fn jump_at(s: &[u8], q: usize, out: &mut [u8], at: usize) -> Result<Built<u8>, usize>
    requires { (q ≤ length s.now) × (at ≤ 65536) × (length out.old < 65536) }
    ensures acts { Acts s.now out.old at out.new (then_read (word_only (bytes "if") (drop q s.now)) (λ _ t. jump t)) result }
    ensures onward { OnwardBuilt s.now q at result }
{
    let test = word_only_at(s, q, b"if")?;
    let x = test_at(s, test, out, past(at, 1))?;
    let target = word_only_at(s, x.place, b"goto")?;
    let (n, place) = number_at(s, target)?;
    put_small(out, at, n);
    Ok(Built {
        kind: 3,
        place,
        end: x.end,
        fits: n < 256 && x.fits,
    })
}

// `store r0 to x1`, `load r0 from x1`
#[tactic(auto, unfolding(crate::proofs::Opened::readings))]
fn transfer_at(
    s: &[u8],
    q: usize,
    word: &[u8],
    joint: &[u8],
    code: u8,
    out: &mut [u8],
    at: usize,
) -> Result<Built<u8>, usize>
    requires { (q ≤ length s.now) × (0 < length word.now) × (0 < length joint.now) × (at ≤ 65536) }
    ensures by_index { (f : ℕ → ℕ → Action) → TwoNames code f
        → Acts s.now out.old at out.new (then_read (word_only word.now (drop q s.now)) (λ _ t. transfer joint.now f t)) result }
    ensures onward { OnwardBuilt s.now q at result }
{
    let first = word_only_at(s, q, word)?;
    let (n, between) = name_at(s, first, b"r")?;
    let second = word_only_at(s, between, joint)?;
    let (v, place) = name_at(s, second, b"x")?;
    put_small(out, at, n);
    put_small(out, at + 1, v);
    Ok(Built {
        kind: code,
        place,
        end: past(at, 2),
        fits: n < 256 && v < 256,
    })
}

// `lock l0`, `unlock l0`
#[tactic(auto, unfolding(crate::proofs::Opened::readings))]
fn locking_at(
    s: &[u8],
    q: usize,
    word: &[u8],
    code: u8,
    out: &mut [u8],
    at: usize,
) -> Result<Built<u8>, usize>
    requires { (q ≤ length s.now) × (0 < length word.now) × (at ≤ 65536) }
    ensures by_index { (f : ℕ → Action) → OneName code f
        → Acts s.now out.old at out.new (then_read (word_only word.now (drop q s.now)) (λ _ t. map_read f (name (bytes "l") t))) result }
    ensures onward { OnwardBuilt s.now q at result }
{
    let lock = word_only_at(s, q, word)?;
    let (n, place) = name_at(s, lock, b"l")?;
    put_small(out, at, n);
    Ok(Built {
        kind: code,
        place,
        end: past(at, 1),
        fits: n < 256,
    })
}

// `skip`
#[tactic(auto, unfolding(crate::proofs::Opened::readings))]
fn skip_at(s: &[u8], q: usize, at: usize) -> Result<Built<u8>, usize>
    requires { (q ≤ length s.now) × (at ≤ 65536) }
    ensures acts { (o : Bytes) → Acts s.now o at o (then_read (word_only (bytes "skip") (drop q s.now)) (λ _ t. took skip t)) result }
    ensures onward { OnwardBuilt s.now q at result }
{
    let place = word_only_at(s, q, b"skip")?;
    Ok(Built {
        kind: 1,
        place,
        end: at,
        fits: true,
    })
}

// ---- which it is

// The word of a statement.
#[derive(Clone, Copy)]
enum Opening {
    Skip,
    If,
    Store,
    Load,
    Unlock,
    Lock,
}

// The byte at a place; 0 behind the text's end.
fn byte_at(s: &[u8], q: usize) -> u8
    ensures { result ≡ get_or s.now q 0 }
{
    s.get(q).copied().unwrap_or(0)
}

// The one word that may stand here, by its letters; where none may, one that stops at the same byte.
fn opening_at(s: &[u8], q: usize) -> Opening
    requires { (q < length s.now) × (spaces (drop q s.now) ≡ drop q s.now) }
    ensures { ActionWord (drop q s.now) result }
{
    match s[q] {
        b'i' => Opening::If,
        b'u' => Opening::Unlock,
        b'l' if byte_at(s, q + 2) == b'a' => Opening::Load,
        b'l' => Opening::Lock,
        b's' if byte_at(s, q + 1) == b't' => Opening::Store,
        b's' => Opening::Skip,
        _ => Opening::Skip, // none may: this one stops here too
    }
}

fn worded_at(
    s: &[u8],
    q: usize,
    word: Opening,
    out: &mut [u8],
    at: usize,
) -> Result<Built<u8>, usize>
    requires { (q ≤ length s.now) × (at ≤ 65536) × (length out.old < 65536) }
    ensures acts { Acts s.now out.old at out.new (then_read (word_only (word_of word) (drop q s.now)) (λ _ t. action_of word t)) result }
    ensures onward { OnwardBuilt s.now q at result }
{
    match word {
        Opening::Skip => skip_at(s, q, at),
        Opening::If => jump_at(s, q, out, at),
        Opening::Store => transfer_at(s, q, b"store", b"to", 4, out, at),
        Opening::Load => transfer_at(s, q, b"load", b"from", 5, out, at),
        Opening::Unlock => locking_at(s, q, b"unlock", 6, out, at),
        Opening::Lock => locking_at(s, q, b"lock", 7, out, at),
    }
}

// From its first byte on, which is no space.
pub(crate) fn action_at(s: &[u8], q: usize, out: &mut [u8], at: usize) -> Result<Built<u8>, usize>
    requires { (q ≤ length s.now) × (spaces (drop q s.now) ≡ drop q s.now) × (at ≤ 65536) × (length out.old < 65536) }
    ensures acts { Acts s.now out.old at out.new (action_here (drop q s.now)) result }
    ensures onward { OnwardBuilt s.now q at result }
{
    if s.len() <= q {
        return Err(q);
    }
    if s[q] == b'r' {
        return assignment_at(s, q, out, at);
    }
    worded_at(s, q, opening_at(s, q), out, at)
}
