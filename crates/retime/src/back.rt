// A change of times taken back: where nothing else was written since, the sheet is again the very bytes before it.
ghost use Rattle.std.specs.Prelude.{◌≡◌, Ok};
ghost use Rattle.rules.specs.Format.{read_sheet};
ghost use Rattle.reader.specs.Index.{index_of};
ghost use Rattle.retimed.specs.TakeBack.{same_times, take_back};
ghost use Rattle.retimed.specs.TakeBackClaims.{AllComeBack};
ghost use Rattle.retime.specs.Shape.{change_of, taken_by, taken_of};

use crate::change::Change;
use crate::find::{Found, find};
use crate::times::{Times, may_have, write_times};
use reader::{Index, read_sheet};
use refusal::{Fault, Refusal};

// The numbers of the answer, as the call for C gives them. Refusal 0 at place 0: the old times stand in the sheet again. Any other: the
// sheet is as it was.
#[derive(Clone, Copy)]
pub struct TakenBack {
    pub refusal: u32,
    pub place: usize,
}

impl From<Result<(), Fault>> for TakenBack {
    ghost from_gives = { λ r b. b ≡ taken_by r };

    fn from(r: Result<(), Fault>) -> TakenBack {
        match r {
            Ok(()) => TakenBack {
                refusal: 0,
                place: 0,
            },
            Err(f) => TakenBack {
                refusal: u32::from(f.refusal),
                place: f.place,
            },
        }
    }
}

// Whether the statement has these times.
fn shows(f: Found, times: Times) -> bool
    ensures { result ≡ same_times f.least f.greatest times.least times.greatest }
{
    f.least == times.least && f.greatest == times.greatest
}

// The taking back in a sheet that reads, by its index. No function for what it shares with `change_by`: here is one test more.
fn take_back_by(sheet: &mut [u8], index: &Index, change: Change) -> Result<(), Fault>
    requires { index_of (read_sheet sheet.old) ≡ Ok index.now }
    ensures { taken_of (taken_by result) sheet.new ≡ take_back sheet.old (change_of change) }
{
    let old = Times {
        least: change.old_least,
        greatest: change.old_greatest,
    };
    let new = Times {
        least: change.new_least,
        greatest: change.new_greatest,
    };
    let Some(f) = find(sheet, index, change.thread, change.statement) else {
        return Err(Fault::from(Refusal::NoSuchName));
    };
    if !may_have(f.code, old) {
        return Err(Fault::from(Refusal::OffRange));
    }
    if !shows(f, new) {
        return Err(Fault::from(Refusal::ChangedSince));
    }
    write_times(sheet, f.place, old);
    Ok(())
}

// The same, where the sheet is read first.
fn take_back_read(sheet: &mut [u8], change: Change) -> Result<(), Fault>
    ensures { taken_of (taken_by result) sheet.new ≡ take_back sheet.old (change_of change) }
{
    let index = read_sheet(sheet)?;
    take_back_by(sheet, &index, change)
}

// Takes back what a change did.
pub fn take_back(sheet: &mut [u8], change: Change) -> TakenBack
    ensures sheet_after { taken_of result sheet.new ≡ take_back sheet.old (change_of change) }
    ensures all_come_back { AllComeBack sheet.old }
{
    TakenBack::from(take_back_read(sheet, change))
}
