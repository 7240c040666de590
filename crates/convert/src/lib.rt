// From text to sheet (02, ticket 2). `as` where std has no `From` for it, and `try_from` would give an `Err` that cannot come.
#![tactic(auto)]

mod head; // limit, budget and label
mod whole; // all lines
mod output; // what the call gives, and a refusal

ghost use Rattle.std.specs.Prelude.{◌≡◌, ℕ, ◌≤◌, ◌<◌, length};
ghost use Rattle.rules.specs.Demands.{Unchanged};
ghost use Rattle.rules.specs.Refusal.{number};
ghost use Rattle.text.specs.Convert as Rule;
ghost use Rattle.refusal.specs.Shape.{rule_of};
ghost use Rattle.convert.specs.Shape.{conversion_of, told_of, refused_by, Blames, Judges, ConvertsWell, ThreeIn, Leaves};

use crate::output::refuse;
use crate::whole::text_at;
use field::need;
pub use output::Conversion;
use reader::read_sheet;
use refusal::{Fault, Refusal};
use writing::{fill, put_front};

// 01's bound, `longest_sheet` of the rules; the one in `reader` is private there, and of 16 bits.
const LONGEST_SHEET: usize = 16384;

// What the reader refuses is said of the line whose field is at its place, at the start of that line: its own refusal, or 4 where a number
// of the line is too big. The text is gone through once more, to find that line.
fn blame(text: &[u8], work: &mut [u8], fault: Fault) -> Fault
    requires { length work.old < 65536 }
    ensures { (room : ℕ) → Blames text.now (length work.old) room (number (rule_of fault.refusal)) fault.place
        (refused_by room (number (rule_of result.refusal)) result.place) }
{
    match text_at(text, work, fault.place) {
        Ok(w) => {
            let (start, fits) = w.at_target.unwrap_or((0, true));
            Fault {
                refusal: if fits {
                    fault.refusal
                } else {
                    Refusal::OffRange
                },
                place: start,
            }
        }
        Err(_) => fault,
    }
}

// The reader says whether what was written is a sheet. Its bytes are counted where it is one that there is room for. A fault is looked up
// once more, with the buffer lent: what a closure of `map_err` gives has no name in the proof.
fn judge(text: &[u8], work: &mut [u8], end: usize, sheet: &mut [u8]) -> Result<usize, Fault>
    requires { (end ≤ length work.old) × (length work.old < 65536) }
    ensures { Judges text.now work.old end (length sheet.old) (told_of result sheet.new) }
{
    if let Err(fault) = read_sheet(&work[..end]) {
        return Err(blame(text, work, fault));
    }
    need(end <= sheet.len(), Refusal::OutputFull, 0)?;
    fill(sheet, &work[..end]);
    Ok(end)
}

// The sheet goes through the work buffer, which has room for it, since it may be refused before it is known to fit. `map_err` was tried
// for the place: what its closure gives has no name in the proof.
fn convert_through(text: &[u8], work: &mut [u8], sheet: &mut [u8]) -> Result<usize, Fault>
    requires { length work.old ≡ 16384 }
    ensures { told_of result sheet.new ≡ Rule.convert (length sheet.old) text.now }
{
    let w = match text_at(text, work, 0) {
        Ok(w) => w,
        Err(place) => {
            return Err(Fault {
                refusal: Refusal::Unreadable,
                place,
            });
        }
    };
    need(w.whole <= LONGEST_SHEET, Refusal::TooLong, 0)?;
    judge(text, work, w.end, sheet)
}

// Converts a text into a sheet in the lent buffer, with zeros behind it; all zeros where it is refused.
pub fn convert_text(text: &[u8], sheet: &mut [u8]) -> Conversion
    ensures sheet_after { conversion_of result sheet.new ≡ Rule.convert (length sheet.old) text.now }
    ensures converts_well { ConvertsWell (length sheet.old) text.now }
    ensures unchanged { Unchanged text.now text.now }
{
    let mut work = [0u8; LONGEST_SHEET];
    match convert_through(text, &mut work, sheet) {
        Ok(written) => Conversion {
            refusal: 0,
            place: 0,
            written,
        },
        Err(fault) => refuse(sheet, fault),
    }
}

// The same for callers in C and in Rust: the answer's three numbers (refusal, place, bytes written) go to the front of a lent array, and
// the refusal is returned. An array of fewer than three numbers is left as it is; the text is converted all the same.
#[unsafe(no_mangle)]
pub extern "C" fn zumbeiry_convert(text: &[u8], sheet: &mut [u8], answer: &mut [u64]) -> u32
    ensures three_in { ThreeIn (Rule.convert (length sheet.old) text.now) answer.old answer.new result }
    ensures leaves { Leaves (Rule.convert (length sheet.old) text.now) sheet.new }
    ensures converts_well { ConvertsWell (length sheet.old) text.now }
    ensures unchanged { Unchanged text.now text.now }
{
    let x = convert_text(text, sheet);
    put_front(
        answer,
        [u64::from(x.refusal), x.place as u64, x.written as u64],
    );
    x.refusal
}
