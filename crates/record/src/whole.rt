// The follower: a sheet and a record in; out, a refusal with its file and place, or whether the run is finished, with its last tick.
ghost use Rattle.std.specs.Prelude.{◌≡◌, Ok};
ghost use Rattle.rules.specs.Format.{read_sheet};
ghost use Rattle.rules.specs.Demands.{Unchanged};
ghost use Rattle.refusal.specs.Shape.{rule_of};
ghost use Rattle.reader.specs.Index.{index_of};
ghost use Rattle.recorded.specs.Follow as F;
ghost use Rattle.recorded.specs.Follow.{refused, follow_record, follow_with};
ghost use Rattle.recorded.specs.Claims.{EndsInLabel};
ghost use Rattle.record.specs.Reached.{reached_of};
ghost use Rattle.record.specs.Start.{StartsFrom};
ghost use Rattle.record.specs.Sheet.{program_of, sizes_in, IsReady};
ghost use Rattle.record.specs.Shape.{file_of, followed_of};

use crate::events::follow_events;
use crate::replay::Replay;
use crate::sheet::Sheet;
use crate::starting::start_replay;
use crate::threads::all_halt;
use event::plan::Plan;
use field::need;
use reader::{Index, read_sheet};
use refusal::{Fault, Refusal};
use state::{State, start};

const LONGEST_RECORD: usize = 65536;

// The file at fault.
#[derive(Clone, Copy, PartialEq, Eq)]
pub enum File {
    Sheet,
    Record,
}

// 0 the sheet, 1 the record.
impl From<File> for u64 {
    ghost from_gives = { λ f n. n ≡ F.file_number (file_of f) };

    fn from(f: File) -> u64 {
        match f {
            File::Sheet => 0,
            File::Record => 1,
        }
    }
}

// The numbers that the C call gives. Refusal 0: the record is a run of the sheet, finished or not, whose last event is at the tick; the
// file is then the sheet and the place 0. `finished` and `tick` count only there, and are false and 0 elsewhere.
#[derive(Clone, Copy)]
pub struct Followed {
    pub refusal: u32,
    pub file: File,
    pub place: usize,
    pub finished: bool,
    pub tick: u32,
}

// The answer to a fault of a file.
fn refused(file: File, f: Fault) -> Followed
    ensures { followed_of result ≡ refused (file_of file) (rule_of f.refusal) f.place }
{
    Followed {
        refusal: u32::from(f.refusal),
        file,
        place: f.place,
        finished: false,
        tick: 0,
    }
}

// The whole record: its length, its starting values, its events. What they leave, and the record's end.
#[tactic(auto, unfolding(crate::proofs::Opened::follow_record))]
fn follow_record(sheet: &Sheet, first: &State, r: &[u8]) -> Result<(Replay, usize), Fault>
    requires { IsReady sheet.now × StartsFrom (program_of sheet.now) first.now }
    ensures { reached_of (sizes_in sheet.now) result ≡ follow_record (program_of sheet.now) r.now }
{
    need(r.len() <= LONGEST_RECORD, Refusal::TooLong, 0)?;
    let (x, at) = start_replay(sheet, first, r)?;
    follow_events(sheet, x, r, at)
}

// The answer to a sheet that reads.
// That the index is the sheet's is a clause and no ghost field of the two: a struct of both would be taken apart at once.
fn follow_index(bytes: &[u8], index: Index, r: &[u8]) -> Followed
    requires { index_of (read_sheet bytes.now) ≡ Ok index }
    ensures { followed_of result ≡ follow_with r.now (read_sheet bytes.now) }
{
    let first = start(bytes, index);
    let sheet = Sheet {
        bytes,
        places: &index.places,
        plan: Plan::from(&index),
        variables: index.variables,
    };
    match follow_record(&sheet, &first, r) {
        Err(f) => refused(File::Record, f),
        Ok((x, _)) => Followed {
            refusal: 0,
            file: File::Sheet,
            place: 0,
            finished: all_halt(&sheet, &x),
            tick: x.tick.0,
        },
    }
}

// Whether the record is a run of the sheet that leaves a state, finished or not, with the last tick. A finished one ends inside the
// sheet's label where demand 3 holds of the sheet, as it does of every accepted one.
pub fn follow(sheet: &[u8], recorded: &[u8]) -> Followed
    ensures result_value { followed_of result ≡ F.follow sheet.now recorded.now }
    ensures ends_in_label { EndsInLabel sheet.now (followed_of result) }
    ensures unchanged { Unchanged sheet.now sheet.now × Unchanged recorded.now recorded.now }
{
    match read_sheet(sheet) {
        Err(f) => refused(File::Sheet, f),
        Ok(index) => follow_index(sheet, index, recorded),
    }
}
