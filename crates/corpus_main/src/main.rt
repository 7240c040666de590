// Reads a corpus from standard input (its form: tools/corpus.rs), gives each sheet to the library with a lent buffer of the
// stated length, and prints how many sheets it compared, how many had another answer than the five stated numbers, and how many
// left a number of the lent part other than zero or changed the number right behind it.
//
// Some entries are planted, so that the comparison itself is tried: one of their numbers is wrong, or the program changes a number
// of the buffer after the call. It prints how many there are of both, and how many of these it noticed.
#![tactic(auto)]

use corpus::{Count, FILLED, all_are, counted, front, read_front};
use label::{Answer, check};
use std::io::Print;

// At most so many entries are compared, whatever the count says.
const MOST_SHEETS: u32 = 65536;

// What each number of the buffer is before a call. By `as`, since a constant calls no `From`.
const BEFORE: i32 = FILLED as i32;

// One more than a number of two bytes may say: the bytes of a sheet, or the numbers that are lent and the one behind them.
const ROOM: usize = 65536;

// Which number of the buffer is changed after the call: the first lent one, the last, or the one right behind the lent part.
#[derive(Clone, Copy, PartialEq, Eq)]
enum Place {
    First,
    Last,
    Behind,
}

// What is planted in an entry: one of the five numbers is wrong, or a number of the buffer is changed. The error is the number itself,
// where it stands for nothing.
#[derive(Clone, Copy, PartialEq, Eq)]
enum Planted {
    Nothing,
    Wrong,
    Changed(Place),
}

impl TryFrom<u8> for Planted {
    type Error = u8;

    fn try_from(code: u8) -> Result<Planted, u8> {
        match code {
            0 => Ok(Planted::Nothing),
            1 => Ok(Planted::Wrong),
            2 => Ok(Planted::Changed(Place::First)),
            3 => Ok(Planted::Changed(Place::Last)),
            4 => Ok(Planted::Changed(Place::Behind)),
            _ => Err(code),
        }
    }
}

// An entry but for its sheet's bytes: how many these are, how many numbers are lent, the answer that is stated, and what is planted, if it
// is known.
#[derive(Clone, Copy)]
struct Front {
    bytes: u16,
    lent: u16,
    stated: Answer,
    planted: Option<Planted>,
}

impl From<[u8; 20]> for Front {
    fn from(front: [u8; 20]) -> Front {
        let [
            b0,
            b1,
            n0,
            n1,
            refusal,
            p0,
            p1,
            s0,
            s1,
            s2,
            s3,
            l0,
            l1,
            l2,
            l3,
            h0,
            h1,
            h2,
            h3,
            planted,
        ] = front;
        Front {
            bytes: u16::from_be_bytes([b0, b1]),
            lent: u16::from_be_bytes([n0, n1]),
            stated: Answer {
                refusal: u32::from(refusal),
                place: usize::from(u16::from_be_bytes([p0, p1])),
                steps: u32::from_be_bytes([s0, s1, s2, s3]),
                low: u32::from_be_bytes([l0, l1, l2, l3]),
                high: u32::from_be_bytes([h0, h1, h2, h3]),
            },
            planted: Planted::try_from(planted).ok(),
        }
    }
}

// What came of an entry.
#[derive(Clone, Copy)]
struct Verdict {
    differs: bool,
    unclean: bool,
}

// What came of the entries: how many are as they should be; how many differ, and have an unclean buffer, where that is not planted; those
// with a wrong number and those with a changed buffer.
#[derive(Clone, Copy, Default)]
struct Tally {
    compared: u64,
    differ: u64,
    unclean: u64,
    wrong: Count,
    changed: Count,
}

impl Tally {
    // One entry more. What is planted by a number that is not known counts as a change.
    fn with(self, v: Verdict, planted: Option<Planted>) -> Tally {
        let differ = counted(self.differ, v.differs);
        let unclean = counted(self.unclean, v.unclean);
        match planted {
            Some(Planted::Nothing) => Tally {
                compared: counted(self.compared, true),
                differ,
                unclean,
                ..self
            },
            Some(Planted::Wrong) => Tally {
                wrong: self.wrong.with(v.differs),
                unclean,
                ..self
            },
            Some(Planted::Changed(_)) | None => Tally {
                changed: self.changed.with(v.unclean),
                differ,
                ..self
            },
        }
    }
}

// Changes the number that the entry asks for, if any; where none is lent there is no first or last one.
fn change(planted: Option<Planted>, lent: &mut [i32], behind: &mut i32) {
    match planted {
        Some(Planted::Changed(Place::First)) => {
            if let Some(x) = lent.first_mut() {
                *x = BEFORE;
            }
        }
        Some(Planted::Changed(Place::Last)) => {
            if let Some(x) = lent.last_mut() {
                *x = BEFORE;
            }
        }
        Some(Planted::Changed(Place::Behind)) => *behind = 0,
        _ => {}
    }
}

// Lends the front of the buffer; the number right behind it is to stay. A buffer that was not full before the call shows nothing, and
// counts as not zero.
fn compare(sheet: &[u8], front: Front, work: &mut [i32; ROOM]) -> Verdict {
    let (lent, rest) = work.split_at_mut(usize::from(front.lent));
    let behind = &mut rest[0];
    *behind = BEFORE;
    lent.fill(BEFORE);
    let full = all_are(lent, BEFORE);
    let answer = check(sheet, lent);
    change(front.planted, lent, behind);
    Verdict {
        differs: answer != front.stated,
        unclean: !(full && all_are(lent, 0) && *behind == BEFORE),
    }
}

// The next entry's verdict, and what was planted in it; none where the corpus holds no more whole ones.
fn compare_next(
    rt: HostRuntime,
    bytes: &mut [u8; ROOM],
    work: &mut [i32; ROOM],
) -> Option<(Verdict, Option<Planted>)> {
    let f = Front::from(front(&mut rt.stdin())?);
    let size = usize::from(f.bytes);
    read_front(&mut rt.stdin(), bytes, size)?;
    Some((compare(&bytes[..size], f, work), f.planted))
}

fn compare_all(rt: HostRuntime, count: u32) -> Tally {
    let mut bytes = [0u8; ROOM];
    let mut work = [0i32; ROOM];
    let mut tally = Tally::default();
    for _ in 0..count.min(MOST_SHEETS) {
        let Some((verdict, planted)) = compare_next(rt, &mut bytes, &mut work) else {
            break;
        };
        tally = tally.with(verdict, planted);
    }
    tally
}

fn main(rt: HostRuntime) {
    let Some(count) = front(&mut rt.stdin()) else {
        return;
    };
    let t = compare_all(rt, u32::from_be_bytes(count));
    let _ = print!(rt;
        "{} sheets compared, {} differ, {} buffers not zero; ",
        t.compared, t.differ, t.unclean
    );
    let _ = println!(rt;
        "noticed of what is planted: {} wrong numbers, {} changed buffers",
        t.wrong, t.changed
    );
}
