// What the reader says of the mended sheet, its place counted in the original; then whether it is too long.
// `MOST_MENDED as u16`: std has no `From` for it, and `try_from` would give an `Err` that cannot come.
ghost use Rattle.std.specs.Prelude.{◌≡◌, ◌≤◌, length};
ghost use Rattle.rules.specs.Constants.{longest_sheet};
ghost use Rattle.field.specs.Outcome.{check_of};
ghost use Rattle.mended.specs.Mend as Rule;

use crate::place::original_place;
use field::need;
use reader::read_up_to;
use refusal::{Fault, Refusal};

// The reader has it as a u16, for its places, and to itself; here it is a length.
pub(crate) const LONGEST_SHEET: usize = 16384;

// Twice as many bytes: no sheet that is not too long has more once it is mended.
pub(crate) const MOST_MENDED: usize = 32768;

// That the sheet is not too long is the caller's own test.
#[tactic(auto, using(crate::proofs::verdict::Laws::verdict_laws))]
pub(crate) fn judge(sheet: &[u8], mended: &[u8]) -> Result<(), Fault>
    requires { (length sheet.now ≤ longest_sheet) × (mended.now ≡ (Rule.mended sheet.now).bytes) }
    ensures { result ≡ check_of (Rule.mend_sheet sheet.now) }
{
    // no `map_err` and `?`: the index, which nothing here wants, would be handed on by value
    if let Err(fault) = read_up_to(mended, MOST_MENDED as u16) {
        return Err(Fault {
            place: original_place(sheet, fault.place),
            ..fault
        });
    }
    need(mended.len() <= LONGEST_SHEET, Refusal::TooLong, 0)
}
