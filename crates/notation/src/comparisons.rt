// Where a condition is due: arithmetic that a first operand begins, and behind it a comparison with more arithmetic, or none.
//
// The text and a place in it, and the output and a place in it, stay apart, since each call has other places: a struct would be made anew
// at each.
ghost use Rattle.std.specs.Prelude.{◌≡◌, ◌≤◌, ◌<◌, length, drop};
ghost use Rattle.rules.specs.Format.{Bytes};
ghost use Rattle.rules.specs.Program.{Arith};
ghost use Rattle.text.specs.Words.{Read};
ghost use Rattle.text.specs.Notation.{Thing, factor, comparison, onward};
ghost use Rattle.scan.specs.Writing.{Made, Builds, OnwardBuilt, Begun};
ghost use Rattle.notation.specs.Forms.{arith_form, thing_form, begins};

use crate::arithmetic::{arith_at, chain_at};
use crate::signs::comparison_at;
use scan::{Built, insert};

// Arithmetic that is written, and what it is compared with.
#[tactic(auto, using(crate::proofs::ArithLaws::sum_level), unfolding(crate::proofs::Opened::compared))]
fn compare_at(
    s: &[u8],
    left: Built<bool>,
    depth: usize,
    out: &mut [u8],
    at: usize,
) -> Result<Built<bool>, usize>
    requires { (left.place ≤ length s.now) × (at ≤ left.end) × (left.end ≤ 65536) × (length out.old < 65536) }
    ensures builds { (o : Bytes) (a : Arith) → Begun arith_form o at out.old left a
        → Builds thing_form s.now o at out.new (comparison (factor depth) a (drop left.place s.now)) result }
    ensures onward { OnwardBuilt s.now left.place at result }
{
    match comparison_at(s, left.place)? {
        None => Ok(Built {
            kind: false,
            ..left
        }),
        Some((code, place)) => {
            let from = insert(out, at, left.end, &[code]);
            let right = arith_at(s, place, depth, 2, out, from)?;
            Ok(Built {
                kind: true,
                fits: left.fits && right.fits,
                ..right
            })
        }
    }
}

// The arithmetic that a first operand begins.
#[tactic(auto, using(crate::proofs::CompareLaws::onward_is), unfolding(crate::proofs::Opened::operands))]
fn onward_at(
    s: &[u8],
    first: Built<bool>,
    depth: usize,
    out: &mut [u8],
    at: usize,
) -> Result<Built<bool>, usize>
    requires { (first.place ≤ length s.now) × (at ≤ first.end) × (first.end ≤ 65536) × (length out.old < 65536) }
    ensures builds { (o : Bytes) (a : Arith) → Begun arith_form o at out.old first a
        → Builds thing_form s.now o at out.new (onward (factor depth) a (drop first.place s.now)) result }
    ensures onward { OnwardBuilt s.now first.place at result }
{
    let product = chain_at(s, first, depth, 1, out, at)?;
    let sum = chain_at(s, product, depth, 2, out, at)?;
    compare_at(s, sum, depth, out, at)
}

// A first operand that is written and, where it is arithmetic, all that it begins.
pub(crate) fn begun_at(
    s: &[u8],
    first: Built<bool>,
    depth: usize,
    out: &mut [u8],
    at: usize,
) -> Result<Built<bool>, usize>
    requires { (first.place ≤ length s.now) × (at ≤ first.end) × (first.end ≤ 65536) × (length out.old < 65536) }
    ensures builds { (o : Bytes) (g : Read Thing) → length o ≡ length out.old → Made thing_form s.now o at out.old g first
        → Builds thing_form s.now o at out.new (begins depth g) result }
    ensures onward { OnwardBuilt s.now first.place at result }
{
    if first.kind {
        Ok(first)
    } else {
        onward_at(s, first, depth, out, at)
    }
}
