// New times on one statement: the four time bytes are written in the sheet, and no other byte.
ghost use Rattle.std.specs.Prelude.{◌≡◌, Ok};
ghost use Rattle.rules.specs.Format.{read_sheet};
ghost use Rattle.reader.specs.Index.{index_of};
ghost use Rattle.retimed.specs.Retime.{change};
ghost use Rattle.retimed.specs.Claims.{ReadsRetimed};
ghost use Rattle.retimed.specs.TakeBackClaims.{ComesBack};
ghost use Rattle.retime.specs.Shape.{changed_by, changed_of};

use crate::find::find;
use crate::times::{Times, may_have, write_times};
use reader::{Index, read_sheet};
use refusal::{Fault, Refusal};

// New times for a statement, named by its thread and its number in it, both from 0.
#[derive(Clone, Copy)]
pub struct Asked {
    pub thread: usize,
    pub statement: usize,
    pub least: u64,
    pub greatest: u64,
}

// What a change did: the statement by its thread and its number in it, its times before and after.
#[derive(Clone, Copy, PartialEq, Eq)]
pub struct Change {
    pub thread: usize,
    pub statement: usize,
    pub old_least: u64,
    pub old_greatest: u64,
    pub new_least: u64,
    pub new_greatest: u64,
}

// The numbers of the answer, as the call for C gives them. Refusal 0 at place 0: the change was made. Any other: the sheet is as it was,
// and the change all zeros.
#[derive(Clone, Copy)]
pub struct Changed {
    pub refusal: u32,
    pub place: usize,
    pub change: Change,
}

// Where nothing was changed.
const NO_CHANGE: Change = Change {
    thread: 0,
    statement: 0,
    old_least: 0,
    old_greatest: 0,
    new_least: 0,
    new_greatest: 0,
};

impl From<Result<Change, Fault>> for Changed {
    ghost from_gives = { λ r c. c ≡ changed_by r };

    fn from(r: Result<Change, Fault>) -> Changed {
        match r {
            Ok(change) => Changed {
                refusal: 0,
                place: 0,
                change,
            },
            Err(f) => Changed {
                refusal: u32::from(f.refusal),
                place: f.place,
                change: NO_CHANGE,
            },
        }
    }
}

// The change of a sheet that reads, by its index. No function for what it shares with `take_back_by`, which asks one test more.
pub(crate) fn change_by(sheet: &mut [u8], index: &Index, asked: Asked) -> Result<Change, Fault>
    requires { index_of (read_sheet sheet.old) ≡ Ok index.now }
    ensures { changed_of (changed_by result) sheet.new ≡ change sheet.old asked.thread asked.statement asked.least asked.greatest }
{
    let Some(f) = find(sheet, index, asked.thread, asked.statement) else {
        return Err(Fault::from(Refusal::NoSuchName));
    };
    let times = Times {
        least: asked.least,
        greatest: asked.greatest,
    };
    if !may_have(f.code, times) {
        return Err(Fault::from(Refusal::OffRange));
    }
    write_times(sheet, f.place, times);
    Ok(Change {
        thread: asked.thread,
        statement: asked.statement,
        old_least: f.least,
        old_greatest: f.greatest,
        new_least: asked.least,
        new_greatest: asked.greatest,
    })
}

// The same, where the sheet is read first.
fn change_read(sheet: &mut [u8], asked: Asked) -> Result<Change, Fault>
    ensures { changed_of (changed_by result) sheet.new ≡ change sheet.old asked.thread asked.statement asked.least asked.greatest }
{
    let index = read_sheet(sheet)?;
    change_by(sheet, &index, asked)
}

// Sets new times on a statement.
pub fn change_times(sheet: &mut [u8], asked: Asked) -> Changed
    ensures sheet_after { changed_of result sheet.new ≡ change sheet.old asked.thread asked.statement asked.least asked.greatest }
    ensures reads_retimed { ReadsRetimed sheet.old asked.thread asked.statement asked.least asked.greatest }
    ensures comes_back { ComesBack sheet.old asked.thread asked.statement asked.least asked.greatest }
{
    Changed::from(change_read(sheet, asked))
}
