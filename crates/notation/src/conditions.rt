// Conditions: operands of `&&` from left to right, each with the `!`s before it.
//
// The text and a place in it, and the output and a place in it, stay apart, since each call has other places: a struct would be made anew
// at each. 32 to 34 are the sheet's own bytes, written as they are: an enum would only be turned back into them.
ghost use Rattle.std.specs.Prelude.{◌≡◌, Bool, [], ◌∷◌, ◌≤◌, ◌<◌, length, drop, get_or};
ghost use Rattle.rules.specs.Format.{Bytes};
ghost use Rattle.rules.specs.Encoding.{encode_condition};
ghost use Rattle.rules.specs.Program.{Condition};
ghost use Rattle.text.specs.Words.{Read, map_read};
ghost use Rattle.text.specs.Lines.{word_only};
ghost use Rattle.text.specs.Notation.{Thing, logical, factor, conjunctions, first, atom, atomic, either};
ghost use Rattle.text.specs.Convert.{condition_fits};
ghost use Rattle.scan.specs.Writing.{Builds, OnwardBuilt};
ghost use Rattle.notation.specs.Forms.{thing_form, condition_form, group_at, start_at, ChainBuilds, KeepsOn};
ghost use Rattle.notation.specs.Nots.{NotsRead, Negates};

use crate::arithmetic::arith_at;
use crate::closing::{closed_at, condition_only};
use crate::comparisons::begun_at;
use crate::signs::conjunction_at;
use scan::{Built, MOST_KEPT, Waiting, past, put, spaces_end, word_only_at};

// `true` or `false`.
#[tactic(auto, using(crate::proofs::ConditionLaws::truths_written), unfolding(scan::specs::Writing::Builds))]
fn truth_at(
    s: &[u8],
    p: usize,
    w: &[u8],
    code: u8,
    out: &mut [u8],
    at: usize,
) -> Result<Built<bool>, usize>
    requires { (p ≤ length s.now) × (0 < length w.now) × (at ≤ 65536) }
    ensures builds { (c : Condition) → encode_condition c ≡ code ∷ [] → condition_fits c ≡ Bool.true
        → Builds thing_form s.now out.old at out.new (map_read (λ _. logical c) (word_only w.now (drop p s.now))) result }
    ensures onward { OnwardBuilt s.now p at result }
{
    let place = word_only_at(s, p, w)?;
    put(out, at, code);
    Ok(Built {
        kind: true,
        place,
        end: past(at, 1),
        fits: true,
    })
}

// A first operand that no parenthesis opens: a truth, a constant or a register.
fn word_or_leaf_at(
    s: &[u8],
    p: usize,
    depth: usize,
    out: &mut [u8],
    at: usize,
) -> Result<Built<bool>, usize>
    requires { (p < length s.now) × (at ≤ 65536) × (length out.old < 65536) }
    ensures builds { (inside : Bytes → Read Thing) → (get_or s.now p 0 ≡ 40 → ⊥)
        → Builds thing_form s.now out.old at out.new (first inside (factor depth) (drop p s.now)) result }
    ensures onward { OnwardBuilt s.now p at result }
{
    match s[p] {
        b't' => truth_at(s, p, b"true", 32, out, at),
        b'f' => truth_at(s, p, b"false", 33, out, at),
        _ => arith_at(s, p, depth, 0, out, at),
    }
}

// The place behind spaces and `!`s, the end of what was written for these, and whether there was one.
#[derive(Clone, Copy)]
pub struct Nots {
    pub place: usize,
    pub end: usize,
    pub some: bool,
}

// Spaces and `!`s; it goes on while a `!` stands next.
fn nots_at(s: &[u8], p: usize, out: &mut [u8], at: usize) -> Nots
    requires { (p ≤ length s.now) × (at ≤ 65536) × (length out.old < 65536) }
    ensures { NotsRead s.now p out.old at out.new result.place result.end result.some }
{
    let mut nots = Nots {
        place: spaces_end(s, p),
        end: at,
        some: false,
    };
    while s.get(nots.place) == Some(&b'!') {
        put(out, nots.end, 34);
        nots = Nots {
            place: spaces_end(s, nots.place + 1),
            end: past(nots.end, 1),
            some: true,
        };
    }
    nots
}

// `!` takes a condition.
fn negated_by(s: &[u8], some: bool, x: Built<bool>) -> Result<Built<bool>, usize>
    requires { x.place ≤ length s.now }
    ensures negates { Negates s.now some x result }
    ensures onward { KeepsOn s.now x result }
{
    if some { condition_only(s, x) } else { Ok(x) }
}

// The first operand, from its first byte.
#[tactic(auto, using(scan::proofs::WordLaws::places, crate::proofs::ConditionLaws::groups), unfolding(crate::proofs::Opened::firsts))]
#[cycle(atom_at_conditions_at_either_at_first_at)]
fn first_at(
    s: &[u8],
    p: usize,
    depth: usize,
    out: &mut [u8],
    at: usize,
) -> Result<Built<bool>, usize>
    requires { (p ≤ length s.now) × (at ≤ 65536) × (length out.old < 65536) }
    ensures builds { Builds thing_form s.now out.old at out.new (first (group_at depth) (factor depth) (drop p s.now)) result }
    ensures onward { OnwardBuilt s.now p at result }
{
    match s.get(p) {
        None => Err(p),
        Some(b'(') if depth == 0 => Err(p),
        Some(b'(') => {
            let inside = either_at(s, p + 1, depth - 1, out, at)?;
            closed_at(s, inside)
        }
        Some(_) => word_or_leaf_at(s, p, depth, out, at),
    }
}

// One operand of `&&`, with the `!`s and spaces before it.
#[cycle(atom_at_conditions_at_either_at_first_at)]
fn atom_at(
    s: &[u8],
    p: usize,
    depth: usize,
    out: &mut [u8],
    at: usize,
) -> Result<Built<bool>, usize>
    requires { (p ≤ length s.now) × (at ≤ 65536) × (length out.old < 65536) }
    ensures builds { Builds thing_form s.now out.old at out.new (atom (start_at depth) (drop p s.now)) result }
    ensures onward { OnwardBuilt s.now p at result }
{
    let nots = nots_at(s, p, out, at);
    let first = first_at(s, nots.place, depth, out, nots.end)?;
    let operand = begun_at(s, first, depth, out, nots.end)?;
    negated_by(s, nots.some, operand)
}

// One operand of `&&`: a condition.
#[tactic(auto, using(crate::proofs::ConditionLaws::atomic_is), unfolding(crate::proofs::Opened::operands))]
#[cycle(atom_at_conditions_at_either_at_first_at)]
fn operand_at(
    s: &[u8],
    p: usize,
    depth: usize,
    out: &mut [u8],
    at: usize,
) -> Result<Built<bool>, usize>
    requires { (p ≤ length s.now) × (at ≤ 65536) × (length out.old < 65536) }
    ensures builds { Builds condition_form s.now out.old at out.new (atomic (start_at depth) (drop p s.now)) result }
    ensures onward { OnwardBuilt s.now p at result }
{
    let atom = atom_at(s, p, depth, out, at)?;
    condition_only(s, atom)
}

// The operands of `&&` that follow one, while a sign stands next. The loop is that of `chain_at` over other readers, which call it again.
// One loop for both would be handed the readers as closures, each with its clauses written out where it is made, and so be longer than the
// two.
#[cycle(atom_at_conditions_at_either_at_first_at)]
fn conditions_at(
    s: &[u8],
    first: Built<bool>,
    depth: usize,
    out: &mut [u8],
    at: usize,
) -> Result<Built<bool>, usize>
    requires { (first.place ≤ length s.now) × (at ≤ first.end) × (first.end ≤ 65536) × (length out.old < 65536) }
    ensures builds { ChainBuilds condition_form conjunctions (atomic (start_at depth)) s.now at out.old first out.new result }
    ensures onward { OnwardBuilt s.now first.place at result }
{
    let mut waiting = Waiting::<MOST_KEPT>::none();
    let mut all = first;
    while let Some((code, q)) = conjunction_at(s, all.place)? {
        let from = waiting.keep(out, at, all.end, code);
        let next = operand_at(s, q, depth, out, from)?;
        all = Built {
            fits: all.fits && next.fits,
            ..next
        };
    }
    let end = waiting.insert(out, at, all.end);
    Ok(Built {
        kind: true,
        end,
        ..all
    })
}

// Arithmetic alone, or operands of `&&`.
#[tactic(auto, using(crate::proofs::ConditionLaws::either_is), unfolding(crate::proofs::Opened::things))]
#[cycle(atom_at_conditions_at_either_at_first_at)]
pub(crate) fn either_at(
    s: &[u8],
    p: usize,
    depth: usize,
    out: &mut [u8],
    at: usize,
) -> Result<Built<bool>, usize>
    requires { (p ≤ length s.now) × (at ≤ 65536) × (length out.old < 65536) }
    ensures builds { Builds thing_form s.now out.old at out.new (either depth (drop p s.now)) result }
    ensures onward { OnwardBuilt s.now p at result }
{
    let first = atom_at(s, p, depth, out, at)?;
    if first.kind {
        conditions_at(s, first, depth, out, at)
    } else {
        Ok(first)
    }
}
