// Reads a corpus of chains from standard input (its form: tools/chain_corpus.rs): sheets, each with steps that follow one another in it,
// changes of times, changes taken back, and bytes that someone else writes in between. After each step the call's numbers must be the
// stated ones, and every byte of the sheet. It prints how many chains and steps it compared, and how many chains differ.
//
// Some chains are planted, so that the comparison itself is tried: one of their numbers is wrong, or what a step makes of the sheet. It
// prints how many there are of each, and how many of these it noticed.
#![tactic(auto)]

mod calls;
mod step;

use crate::calls::{Verdict, compare_step};
use crate::step::{BYTES, Step};
use corpus::{Count, Planted, bytes_at, copy_bytes, front, over_entries, read_front};
use std::io::{Print, Read};

// Bytes of a sheet at most.
const ROOM: usize = 20000;

// What stands before a chain's sheet: what is planted, if it is known, the sheet's length, and how many steps there are. No corpus has a
// number of something else that is planted; it would count for nothing.
#[derive(Clone, Copy)]
struct Front {
    planted: Option<Planted>,
    sheet: usize,
    steps: u32,
}

impl From<[u8; 9]> for Front {
    fn from(b: [u8; 9]) -> Front {
        Front {
            planted: Planted::try_from(b[0]).ok(),
            // `usize` has no `From<u32>`, and a `try_from` would give an error that cannot come.
            sheet: u32::from_be_bytes(bytes_at(&b, 1)) as usize,
            steps: u32::from_be_bytes(bytes_at(&b, 5)) / (BYTES as u32),
        }
    }
}

// The chains that are right, of which none is to differ, and their steps; those that have a wrong number or a wrong sheet.
#[derive(Clone, Copy, Default)]
struct Tally {
    chains: Count,
    steps: u64,
    numbers: Count,
    sheets: Count,
}

impl Tally {
    // One chain more. Of two facts the one that is planted does not hold, the other does.
    fn with(self, planted: Option<Planted>, v: Verdict) -> Tally {
        match planted {
            Some(Planted::Nothing) => Tally {
                chains: self.chains.with(!(v.numbers && v.sheet)),
                steps: v.steps,
                ..self
            },
            Some(Planted::WrongNumber) => Tally {
                numbers: self.numbers.with(!v.numbers && v.sheet),
                ..self
            },
            Some(Planted::WrongSheet) => Tally {
                sheets: self.sheets.with(v.numbers && !v.sheet),
                ..self
            },
            None => self,
        }
    }
}

// One step more; none where the corpus does not hold it whole.
fn compare_next<R: Read>(
    from: &mut R,
    v: Verdict,
    sheet: &mut [u8],
    stated: &mut [u8],
) -> Option<Verdict> {
    let step = Step::from(front(from)?);
    Some(compare_step(v, step, sheet, stated))
}

// So many steps of a chain, one after another in the same sheet; so many were compared before. The second buffer holds what the sheet
// is to be.
fn compare_chain<R: Read>(
    from: &mut R,
    count: u32,
    before: u64,
    sheet: &mut [u8],
    stated: &mut [u8],
) -> Option<Verdict> {
    copy_bytes(sheet, stated)?;
    let mut v = Verdict {
        numbers: true,
        sheet: true,
        steps: before,
    };
    for _ in 0..count {
        v = compare_next(from, v, sheet, stated)?;
    }
    Some(v)
}

// One chain more, its sheet at the front of both buffers; none where the corpus does not hold it whole.
fn compare_entry<R: Read>(
    from: &mut R,
    t: Tally,
    sheet: &mut [u8],
    stated: &mut [u8],
) -> Option<Tally> {
    let f = Front::from(front(from)?);
    read_front(from, sheet, f.sheet)?;
    let sheet = sheet.get_mut(..f.sheet)?;
    let stated = stated.get_mut(..f.sheet)?;
    let v = compare_chain(from, f.steps, t.steps, sheet, stated)?;
    Some(t.with(f.planted, v))
}

fn main(rt: HostRuntime) {
    let mut sheet = [0u8; ROOM];
    let mut stated = [0u8; ROOM];
    let Some(t) = over_entries(&mut rt.stdin(), Tally::default(), |from, t| {
        compare_entry(from, t, &mut sheet, &mut stated)
    }) else {
        return;
    };
    let _ = print!(rt;
        "{} chains of {} steps compared, {} differ; noticed of what is planted: ",
        t.chains.all, t.steps, t.chains.noticed
    );
    let _ = println!(rt; "{} wrong numbers, {} wrong sheets", t.numbers, t.sheets);
}
