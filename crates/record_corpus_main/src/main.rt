// Reads a corpus of records from standard input (its form: tools/record_corpus.rs), follows each entry's record through its sheet, and
// prints how many records it compared and how many had another answer than the stated one: the refusal, the file, the place, whether
// the run is finished, or the last tick.
//
// Some entries are planted, so that the comparison itself is tried: one of their five numbers is wrong. It prints how many there are,
// and how many of these it noticed.
//
// Numbers are made wider by `as`: `usize` has no `From<u32>`, `u64` none of a `usize`, and a `try_from` would give an error that cannot
// come.
#![tactic(auto)]

use corpus::{Count, bytes_at, front, over_entries, read_front};
use record::{Followed, follow};
use std::io::{Print, Read};

// Bytes of a sheet and of a record at most.
const SHEET_ROOM: usize = 20000;

const RECORD_ROOM: usize = 70000;

// What is planted in an entry: one of the five numbers is wrong. No corpus has another number there; it would count for nothing. The error
// is that number.
#[derive(Clone, Copy, PartialEq, Eq)]
enum Planted {
    Nothing,
    WrongNumber,
}

impl TryFrom<u8> for Planted {
    type Error = u8;

    fn try_from(code: u8) -> Result<Planted, u8> {
        match code {
            0 => Ok(Planted::Nothing),
            1 => Ok(Planted::WrongNumber),
            _ => Err(code),
        }
    }
}

// An entry but for the bytes of its sheet and its record, of which these are the lengths. Its five numbers are as the corpus states them,
// and the refusal and the file are compared as C gets them.
#[derive(Clone, Copy)]
struct Entry {
    planted: Option<Planted>,
    sheet: usize,
    recorded: usize,
    due: [u64; 5],
}

impl From<[u8; 20]> for Entry {
    fn from(b: [u8; 20]) -> Entry {
        Entry {
            planted: Planted::try_from(b[0]).ok(),
            sheet: u32::from_be_bytes(bytes_at(&b, 1)) as usize,
            recorded: u32::from_be_bytes(bytes_at(&b, 5)) as usize,
            due: [
                u64::from(b[9]),
                u64::from(b[10]),
                u64::from(u32::from_be_bytes(bytes_at(&b, 11))),
                u64::from(b[15]),
                u64::from(u32::from_be_bytes(bytes_at(&b, 16))),
            ],
        }
    }
}

// The entries that are right, of which none is to differ, and those that have a wrong number.
#[derive(Clone, Copy, Default)]
struct Tally {
    records: Count,
    numbers: Count,
}

impl Tally {
    fn with(self, planted: Option<Planted>, differs: bool) -> Tally {
        match planted {
            Some(Planted::Nothing) => Tally {
                records: self.records.with(differs),
                ..self
            },
            Some(Planted::WrongNumber) => Tally {
                numbers: self.numbers.with(differs),
                ..self
            },
            None => self,
        }
    }
}

fn numbers_of(f: Followed) -> [u64; 5] {
    [
        u64::from(f.refusal),
        u64::from(f.file),
        f.place as u64,
        u64::from(f.finished),
        u64::from(f.tick),
    ]
}

// One entry more, its sheet and its record at the fronts of the buffers; none where the corpus does not hold it whole.
fn compare_next<R: Read>(
    from: &mut R,
    t: Tally,
    sheet: &mut [u8],
    recorded: &mut [u8],
) -> Option<Tally> {
    let e = Entry::from(front(from)?);
    read_front(from, sheet, e.sheet)?;
    read_front(from, recorded, e.recorded)?;
    let f = follow(&sheet[..e.sheet], &recorded[..e.recorded]);
    Some(t.with(e.planted, numbers_of(f) != e.due))
}

fn main(rt: HostRuntime) {
    let mut sheet = [0u8; SHEET_ROOM];
    let mut recorded = [0u8; RECORD_ROOM];
    let Some(t) = over_entries(&mut rt.stdin(), Tally::default(), |from, t| {
        compare_next(from, t, &mut sheet, &mut recorded)
    }) else {
        return;
    };
    let _ = println!(rt;
        "{} records compared, {} differ; noticed of what is planted: {} wrong numbers",
        t.records.all, t.records.noticed, t.numbers
    );
}
