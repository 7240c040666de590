// The mending for callers in C and in Rust: each export calls the function of the same name in `mend`, and says what it says.
#![tactic(auto)]

ghost use Rattle.std.specs.Prelude.{length};
ghost use Rattle.rules.specs.Demands.{Unchanged};
ghost use Rattle.mended.specs.Mend as Rule;
ghost use Rattle.mended.specs.Claims.{MendsWell};
ghost use Rattle.mend.specs.Shape.{FourIn, Leaves};

// The same for callers in C and in Rust: the answer's four numbers (refusal, place, bytes written, numbers listed) go to the front of a
// lent array, and the refusal is returned. An array of fewer than four numbers is left as it is; the sheet is mended all the same.
#[unsafe(no_mangle)]
pub extern "C" fn zumbeiry_mend(
    sheet: &[u8],
    mended: &mut [u8],
    changes: &mut [u32],
    answer: &mut [u64],
) -> u32
    ensures four_in { FourIn (Rule.mend sheet.now (length mended.old) (length changes.old)) answer.old answer.new result }
    ensures leaves { Leaves (Rule.mend sheet.now (length mended.old) (length changes.old)) mended.new changes.new }
    ensures mends_well { MendsWell sheet.now (length mended.old) (length changes.old) }
    ensures unchanged { Unchanged sheet.now sheet.now }
{
    mend::zumbeiry_mend(sheet, mended, changes, answer)
}
