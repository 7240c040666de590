// Arithmetic: read from left to right, written operator first. The operands are written one behind the other, and the operators that
// join them are kept beside until what stands left of them is moved on to make room for all of these.
//
// The text and a place in it, and the output and a place in it, stay apart, since each call has other places: a struct would be made anew
// at each. 16 and 17 are the sheet's own bytes, written as they are: an enum would only be turned back into them.
ghost use Rattle.std.specs.Prelude.{◌≡◌, ℕ, ◌-◌, ◌≤◌, ◌<◌, ℤ, length, drop, get_or};
ghost use Rattle.rules.specs.Format.{Bytes};
ghost use Rattle.rules.specs.Program.{Arith, constant, register};
ghost use Rattle.text.specs.Words.{Read, map_read};
ghost use Rattle.text.specs.Notation.{operand};
ghost use Rattle.scan.specs.Reading.{read_of, same, place_of, capped, value_code};
ghost use Rattle.scan.specs.Writing.{Builds, built_place, built_end, OnwardBuilt};
ghost use Rattle.notation.specs.Forms.{arith_form, ops_at, arith_at, ChainBuilds};

use crate::closing::closed_at;
use crate::signs::operator_at;
use scan::{
    Built, MOST_KEPT, TOO_BIG, Waiting, digits_at, negated, number_at, past, positive, put_bytes,
    put_constant, spaces_end,
};

// A constant that was read.
#[tactic(auto, using(crate::proofs::LeafLaws::constants), unfolding(scan::specs::Writing::Builds))]
fn write_constant(
    out: &mut [u8],
    at: usize,
    x: Result<(u64, usize), usize>,
) -> Result<Built<bool>, usize>
    requires { at ≤ 65536 }
    ensures builds { (s : Bytes) (k : ℕ → ℤ) (g : Read ℕ) → read_of same s x ≡ map_read (λ n. value_code (k n)) g
        → Builds arith_form s out.old at out.new (map_read (λ n. constant (k n)) g) result }
    ensures place { built_place result ≡ place_of x }
    ensures from { at ≤ built_end at result }
    ensures top { built_end at result ≤ 65536 }
{
    let (v, place) = x?;
    let fits = v < TOO_BIG;
    if fits {
        put_constant(out, at, v);
    }
    Ok(Built {
        kind: false,
        place,
        end: past(at, 5),
        fits,
    })
}

// A register whose number was read.
#[tactic(auto, using(crate::proofs::LeafLaws::registers), unfolding(scan::specs::Writing::Builds))]
fn write_register(
    out: &mut [u8],
    at: usize,
    x: Result<(u64, usize), usize>,
) -> Result<Built<bool>, usize>
    requires { at ≤ 65536 }
    ensures builds { (s : Bytes) (g : Read ℕ) → read_of same s x ≡ map_read capped g
        → Builds arith_form s out.old at out.new (map_read register g) result }
    ensures place { built_place result ≡ place_of x }
    ensures from { at ≤ built_end at result }
    ensures top { built_end at result ≤ 65536 }
{
    let (v, place) = x?;
    if let Ok(b) = u8::try_from(v) {
        put_bytes(out, at, &[17, b]);
    }
    Ok(Built {
        kind: false,
        place,
        end: past(at, 2),
        fits: v < 256,
    })
}

// A constant or a register, right here.
#[tactic(auto, using(scan::proofs::WordLaws::here), unfolding(text::specs::Notation::operand))]
fn leaf_at(s: &[u8], p: usize, out: &mut [u8], at: usize) -> Result<Built<bool>, usize>
    requires { (p < length s.now) × (at ≤ 65536) }
    ensures builds { (inside : Bytes → Read Arith) → (get_or s.now p 0 ≡ 40 → ⊥)
        → Builds arith_form s.now out.old at out.new (operand inside (drop p s.now)) result }
    ensures onward { OnwardBuilt s.now p at result }
{
    match s[p] {
        b'-' => write_constant(out, at, negated(number_at(s, p + 1))),
        b'r' => write_register(out, at, digits_at(s, p + 1)),
        _ => write_constant(out, at, positive(digits_at(s, p))),
    }
}

// A factor, a product or a sum, by its level: a number, as `Forms.arith_at` has it; each level calls the one below.
#[tactic(auto, using(crate::proofs::ArithLaws::arith_from), unfolding(crate::proofs::Opened::operands))]
#[cycle(arith_at_chain_at_factor_at)]
pub(crate) fn arith_at(
    s: &[u8],
    p: usize,
    depth: usize,
    level: usize,
    out: &mut [u8],
    at: usize,
) -> Result<Built<bool>, usize>
    requires { (p ≤ length s.now) × (at ≤ 65536) × (length out.old < 65536) }
    ensures builds { Builds arith_form s.now out.old at out.new (arith_at depth level (drop p s.now)) result }
    ensures onward { OnwardBuilt s.now p at result }
{
    if level == 0 {
        return factor_at(s, p, depth, out, at);
    }
    let first = arith_at(s, p, depth, level - 1, out, at)?;
    chain_at(s, first, depth, level, out, at)
}

// The operands that follow one; it goes on while a sign stands next.
#[cycle(arith_at_chain_at_factor_at)]
pub(crate) fn chain_at(
    s: &[u8],
    first: Built<bool>,
    depth: usize,
    level: usize,
    out: &mut [u8],
    at: usize,
) -> Result<Built<bool>, usize>
    requires { (first.place ≤ length s.now) × (1 ≤ level) × (at ≤ first.end) × (first.end ≤ 65536) × (length out.old < 65536) }
    ensures builds { ChainBuilds arith_form (ops_at level) (arith_at depth (level - 1)) s.now at out.old first out.new result }
    ensures onward { OnwardBuilt s.now first.place at result }
{
    let mut waiting = Waiting::<MOST_KEPT>::none();
    let mut all = first;
    while let Some((code, q)) = operator_at(s, all.place, level) {
        let from = waiting.keep(out, at, all.end, code);
        let next = arith_at(s, q, depth, level - 1, out, from)?;
        all = Built {
            fits: all.fits && next.fits,
            ..next
        };
    }
    let end = waiting.insert(out, at, all.end);
    Ok(Built {
        kind: false,
        end,
        ..all
    })
}

// What is in parentheses, a constant or a register.
#[tactic(auto, using(scan::proofs::WordLaws::places, crate::proofs::ArithLaws::factors), unfolding(crate::proofs::Opened::factors))]
#[cycle(arith_at_chain_at_factor_at)]
fn factor_at(
    s: &[u8],
    p: usize,
    depth: usize,
    out: &mut [u8],
    at: usize,
) -> Result<Built<bool>, usize>
    requires { (p ≤ length s.now) × (at ≤ 65536) × (length out.old < 65536) }
    ensures builds { Builds arith_form s.now out.old at out.new (arith_at depth 0 (drop p s.now)) result }
    ensures onward { OnwardBuilt s.now p at result }
{
    let q = spaces_end(s, p);
    match s.get(q) {
        None => Err(q),
        Some(b'(') if depth == 0 => Err(q),
        Some(b'(') => {
            let inside = arith_at(s, q + 1, depth - 1, 2, out, at)?;
            closed_at(s, inside)
        }
        Some(_) => leaf_at(s, q, out, at),
    }
}
