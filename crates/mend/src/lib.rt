// Mending a garbled sheet (02, ticket 13): ends that stand the wrong way round are exchanged, and a thread that closes on another
// statement gets its halt.
// `as u64` of a usize: std has no `From` for it, and `try_from` would give an `Err` that cannot come.
#![tactic(auto)]

mod fields; // a whole field, of whichever tag
mod writer; // the mended sheet and the list of its changes, field by field
mod place; // a place counted in the original
mod verdict; // what the reader says of the mended sheet
mod outputs; // both outputs at the end

ghost use Rattle.std.specs.Prelude.{◌≡◌, ◌*◌, ◌≤◌, length, IfOk, IfErr};
ghost use Rattle.rules.specs.Constants.{longest_sheet};
ghost use Rattle.rules.specs.Demands.{Unchanged};
ghost use Rattle.refusal.specs.Shape.{rule_of};
ghost use Rattle.mended.specs.Mend as Rule;
ghost use Rattle.mended.specs.Claims.{MendsWell};
ghost use Rattle.mend.specs.Shape.{mending_of, mended_by, FourIn, Leaves};

use crate::outputs::refuse;
use crate::verdict::{LONGEST_SHEET, MOST_MENDED, judge};
use crate::writer::{Ends, put_fields};
use field::need;
pub use outputs::Mending;
use refusal::{Fault, Refusal};
use writing::{fill, put_copies, put_front};

// Writes both outputs, where nothing is refused. The mended sheet goes through the work buffer, which has room for it, since it may be
// refused before it is known to fit. The sheet's length is the caller's own test: too long a sheet gets no work buffer.
#[tactic(auto, using(crate::proofs::Outcome::through_laws))]
fn mend_through(
    sheet: &[u8],
    work: &mut [u8],
    mended: &mut [u8],
    changes: &mut [u32],
) -> Result<Ends, Fault>
    requires { (length sheet.now ≤ longest_sheet) × (2 * longest_sheet ≤ length work.old) }
    ensures ok { IfOk result (λ e. mended_by e mended.new changes.new ≡ Rule.mend sheet.now (length mended.old) (length changes.old)) }
    ensures err { IfErr result (λ f. Rule.refused_with (length mended.old) (length changes.old) (rule_of f.refusal) f.place
        ≡ Rule.mend sheet.now (length mended.old) (length changes.old)) }
{
    let ends = put_fields(sheet, work, changes);
    judge(sheet, &work[..ends.bytes])?;
    let fits = ends.bytes <= mended.len() && ends.numbers <= changes.len();
    need(fits, Refusal::OutputFull, 0)?;
    fill(mended, &work[..ends.bytes]);
    put_copies(changes, ends.numbers, 0);
    Ok(ends)
}

// Mends a sheet into the first buffer, and lists its changes in the second: for each its kind (1 exchanged, 2 halt added) and the place of
// its field in the sheet, of an added halt that of the thread's last statement. Both are zero behind what is written, and all zeros where
// it is refused.
#[tactic(auto, using(crate::proofs::Outcome::call_laws))]
pub fn mend_sheet(sheet: &[u8], mended: &mut [u8], changes: &mut [u32]) -> Mending
    ensures changes_after { mending_of result mended.new changes.new ≡ Rule.mend sheet.now (length mended.old) (length changes.old) }
    ensures mends_well { MendsWell sheet.now (length mended.old) (length changes.old) }
    ensures unchanged { Unchanged sheet.now sheet.now }
{
    if LONGEST_SHEET < sheet.len() {
        let fault = Fault {
            refusal: Refusal::TooLong,
            place: 0,
        };
        return refuse(mended, changes, fault);
    }
    let mut work = [0u8; MOST_MENDED];
    match mend_through(sheet, &mut work, mended, changes) {
        Ok(ends) => Mending {
            refusal: 0,
            place: 0,
            written: ends.bytes,
            listed: ends.numbers,
        },
        Err(fault) => refuse(mended, changes, fault),
    }
}

// The same for callers in C and in Rust: the answer's four numbers (refusal, place, bytes written, numbers listed) go to the front of a
// lent array, and the refusal is returned. An array of fewer than four numbers is left as it is; the sheet is mended all the same.
#[unsafe(no_mangle)]
pub extern "C" fn zumbeiry_mend(
    sheet: &[u8],
    mended: &mut [u8],
    changes: &mut [u32],
    answer: &mut [u64],
) -> u32
    ensures four_in { FourIn (Rule.mend sheet.now (length mended.old) (length changes.old)) answer.old answer.new result }
    ensures leaves { Leaves (Rule.mend sheet.now (length mended.old) (length changes.old)) mended.new changes.new }
    ensures mends_well { MendsWell sheet.now (length mended.old) (length changes.old) }
    ensures unchanged { Unchanged sheet.now sheet.now }
{
    let m = mend_sheet(sheet, mended, changes);
    put_front(
        answer,
        [
            u64::from(m.refusal),
            m.place as u64,
            m.written as u64,
            m.listed as u64,
        ],
    );
    m.refusal
}
