// Threads: the field of tag 4, the registers, the statements and the closing of each, and the tables of an index.
// The casts: std has no `From` to these narrower types, and `try_from` would give an Err that cannot come.
ghost use Rattle.std.specs.Prelude.{◌≡◌, ◌+◌, ◌*◌, ◌≤◌, length};
ghost use Rattle.rules.specs.Constants.{most_threads, most_statements};
ghost use Rattle.rules.specs.Format.{byte, read_thread, read_threads};
ghost use Rattle.reader.specs.Index.{greatest_place, ThreadRead, ThreadsRead, entry_with};

use crate::closing::{last_halts, targets_fit};
use crate::places::{MOST_STATEMENTS, read_statements};
use field::{Counted, Names, byte_at, need, open_end, registers_end};
use refusal::{Fault, Refusal};

pub const MOST_THREADS: usize = 4;

// The bytes of a thread's field of tag 4; its registers stand behind them.
pub const OPENING_SIZE: usize = 4;

// Where a thread's field of tag 4 stands, and how many registers and statements it has.
#[derive(Clone, Copy)]
pub struct ThreadEntry {
    pub place: u16,
    pub registers: u16,
    pub statements: u16,
}

// What stands behind the last entry.
const NO_ENTRY: ThreadEntry = ThreadEntry {
    place: 0,
    registers: 0,
    statements: 0,
};

// How many threads were read, and their entries: an array with a count, as in an index.
#[derive(Clone, Copy)]
pub(crate) struct Threads {
    pub count: usize,
    pub entries: [ThreadEntry; MOST_THREADS],
}

// One thread, whose tag stands at a place: how many statements it has. Their places go to the front of the table.
#[tactic(auto, unfolding(rules::specs::Format::read_thread, rules::specs::Format::and_then, rules::specs::Format::close))]
fn read_thread(
    s: &[u8],
    vars: usize,
    locks: usize,
    at: usize,
    places: &mut [u16],
) -> Result<Counted, Fault>
    requires { (most_statements ≤ length places.old) × (length s.now ≤ greatest_place) }
    ensures { ThreadRead (read_thread vars locks s.now at) places.old places.new result }
{
    let opened = open_end(s, at)?;
    let regs = byte_at(s, at + 3);
    let start = registers_end(s, regs, opened)?;
    let names = Names { regs, vars, locks };
    let read = read_statements(s, names, start, places)?;
    // Closing, before anything behind the thread is read.
    let own = &places[..read.count];
    last_halts(s, own)?;
    targets_fit(s, own)?;
    Ok(read)
}

// The entry of a thread that was read: its field stands at p, and it has n statements. Every number of it is below 65,536.
fn entry_at(s: &[u8], p: usize, n: usize) -> ThreadEntry
    requires { (p ≤ greatest_place) × (n ≤ most_statements) }
    ensures { result ≡ entry_with p (byte s.now (p + 3)) n }
{
    ThreadEntry {
        place: p as u16,
        registers: byte_at(s, p + 3) as u16,
        statements: n as u16,
    }
}

// All threads; the places of thread t's statements go into the table from t * MOST_STATEMENTS on.
pub(crate) fn read_threads(
    s: &[u8],
    vars: usize,
    locks: usize,
    at: usize,
    places: &mut [u16],
) -> Result<Threads, Fault>
    requires { (most_threads * most_statements ≤ length places.old) × (length s.now ≤ greatest_place) }
    ensures { ThreadsRead (read_threads vars locks s.now at) places.old places.new result }
{
    let mut entries = [NO_ENTRY; MOST_THREADS];
    let mut count = 0;
    let mut end = at;
    // A `while`: behind a `for` over the entries and the rows, the sheet's end would be tested once more to tell too many.
    while end != s.len() {
        need(count < MOST_THREADS, Refusal::TooMany, end)?;
        let row = &mut places[count * MOST_STATEMENTS..];
        let read = read_thread(s, vars, locks, end, row)?;
        entries[count] = entry_at(s, end, read.count);
        end = read.end;
        count += 1;
    }
    Ok(Threads { count, entries })
}
