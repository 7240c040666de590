// A statement of a sheet that reads, by its thread and its number, both from 0.
ghost use Rattle.std.specs.Prelude.{◌≡◌, ◌+◌, ◌≤◌, length, Ok};
ghost use Rattle.rules.specs.Format.{read_sheet};
ghost use Rattle.reader.specs.Index.{index_of};
ghost use Rattle.retime.specs.Shape.{found_at, Finds};

use expression::num16_at;
use reader::{Index, MOST_STATEMENTS};

// A statement's place, its code and its times: of the code `field::times_fit` asks, which decides what times it may have (DECISIONS 65).
#[derive(Clone, Copy)]
pub struct Found {
    pub place: usize,
    pub code: usize,
    pub least: u64,
    pub greatest: u64,
}

fn found_at(sheet: &[u8], place: usize) -> Found
    requires { place + 8 ≤ length sheet.now }
    ensures { result ≡ found_at sheet.now place }
{
    Found {
        place,
        code: usize::from(sheet[place + 7]),
        least: u64::from(num16_at(sheet, place + 3)),
        greatest: u64::from(num16_at(sheet, place + 5)),
    }
}

// That the index is the sheet's is a clause and no ghost field of the two: a struct of both would be taken apart at once.
pub(crate) fn find(sheet: &[u8], index: &Index, thread: usize, statement: usize) -> Option<Found>
    requires { index_of (read_sheet sheet.now) ≡ Ok index.now }
    ensures { Finds sheet.now thread statement result }
{
    if index.threads <= thread || usize::from(index.entries[thread].statements) <= statement {
        return None;
    }
    let place = index.places[thread * MOST_STATEMENTS + statement];
    Some(found_at(sheet, usize::from(place)))
}
