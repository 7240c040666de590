// The reader of a sheet: any bytes to an index of the sheet, or the first refusal with its place.
#![tactic(auto)]

mod places; // the statements of a thread, and the table of their places
mod closing; // the closing of a thread
pub mod threads; // threads, and the tables of an index
mod parts; // the parts before the threads
mod held; // the reader that holds the sheet, and the walk of a sheet by it

ghost use Rattle.std.specs.Prelude.{◌≡◌, ◌≤◌, length};
ghost use Rattle.rules.specs.Format.{read_threads, read_sheet};
ghost use Rattle.reader.specs.Index.{greatest_place, read_up_to, index_with, index_of};

use crate::held::walk_sheet;
use crate::threads::{ThreadEntry, Threads, read_threads};
use field::{Header, Time, need};
pub use places::MOST_STATEMENTS;
use refusal::{Fault, Refusal};
pub use threads::{MOST_THREADS, OPENING_SIZE};

const LONGEST_SHEET: u16 = 16384;

pub const MOST_PLACES: usize = MOST_THREADS * MOST_STATEMENTS;

// What a sheet says, by where it stands: the header's numbers, the counts, an entry for each thread, and the place of statement k of
// thread t at places[t * MOST_STATEMENTS + k]. The tables are arrays with a count: memory is fixed, with no heap and no crate but std.
// The header's numbers stand one by one, as `IndexFacts` and the crates above name them.
#[derive(Clone, Copy)]
pub struct Index {
    pub limit: Time,
    pub budget: u32,
    pub label_low: Time,
    pub label_high: Time,
    pub locks: usize,
    pub variables: usize,
    pub threads: usize,
    pub entries: [ThreadEntry; MOST_THREADS],
    pub places: [u16; MOST_PLACES],
}

// The index of a sheet whose threads stand from a place on, with what was read before them.
pub(crate) fn indexed(
    s: &[u8],
    at: usize,
    header: Header,
    locks: usize,
    variables: usize,
) -> Result<Index, Fault>
    requires { length s.now ≤ greatest_place }
    ensures { result ≡ index_with header locks variables (read_threads variables locks s.now at) }
{
    let mut places = [0u16; MOST_PLACES];
    let Threads { count, entries } = read_threads(s, variables, locks, at, &mut places)?;
    Ok(Index {
        limit: header.limit,
        budget: header.budget,
        label_low: header.label_low,
        label_high: header.label_high,
        locks,
        variables,
        threads: count,
        entries,
        places,
    })
}

// Reads a sheet that may have up to so many bytes.
#[tactic(auto, unfolding(crate::specs::Index::read_up_to, crate::specs::Index::index_of, rules::specs::Format::need))]
pub fn read_up_to(sheet: &[u8], most: u16) -> Result<Index, Fault>
    ensures { result ≡ index_of (read_up_to most sheet.now) }
{
    need(sheet.len() <= usize::from(most), Refusal::TooLong, 0)?;
    walk_sheet(sheet)
}

// Reads a sheet.
#[tactic(auto, unfolding(crate::specs::Index::read_up_to, rules::specs::Format::read_sheet))]
pub fn read_sheet(sheet: &[u8]) -> Result<Index, Fault>
    ensures { result ≡ index_of (read_sheet sheet.now) }
{
    read_up_to(sheet, LONGEST_SHEET)
}
