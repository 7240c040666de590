// A state that was taken from the stack, with the sheet that it is of.
ghost use Rattle.std.specs.Prelude.{◌<◌, length};
ghost use Rattle.state.specs.Cells.{decode};
ghost use Rattle.state.specs.Access.{thread_at};
ghost use Rattle.reader.specs.Facts.{statement_in};
ghost use Rattle.event.specs.Fetch.{names_of, Fetches};

use event::fetch::{Fetched, fetch};
use event::plan::Plan;
use reader::MOST_PLACES;
use state::{NUMBERS_PER_STATE, at_of};

// That these are one sheet's is a `requires` (IsReady) and no ghost field: a ghost field's fact has to be shown to have one proof at most,
// and no such proof is there of all that is known of a sheet that reads.
#[derive(Clone, Copy)]
pub(crate) struct Taken<'a> {
    pub sheet: &'a [u8],
    pub places: &'a [u16; MOST_PLACES],
    pub plan: Plan,
    pub cells: &'a [i32; NUMBERS_PER_STATE],
}

impl<'a> Taken<'a> {
    ghost use Rattle.search.specs.Taken.{IsReady, program_of};

    // The statement at which thread t stands.
    pub(crate) fn fetch(&self, t: usize) -> Fetched
        requires { IsReady self.now × (t < length (program_of self.now).threads) }
        ensures { Fetches self.now.sheet.now (names_of (program_of self.now) t) (thread_at (decode self.now.cells.now) t).at
            (statement_in (program_of self.now) t (thread_at (decode self.now.cells.now) t).at) result }
    {
        fetch(self.sheet, self.places, self.plan, t, at_of(self.cells, t))
    }
}
