// Reads a corpus of new times from standard input (its form: tools/retime_corpus.rs). For each entry it asks for the preview, with
// copy and work buffers of the stated lengths, and then makes the change. It prints how many entries it compared, how many had other
// numbers than the stated ones or another sheet after the change, and after how many previews a buffer was not all zeros or the sheet
// not as it was.
//
// Some entries are planted, so that the comparison itself is tried: one of their numbers is wrong, or the stated sheet, or the program
// changes something after the preview. It prints how many there are of each, and how many of these it noticed.
#![tactic(auto)]

mod buffers;
mod calls;
mod entry;

use crate::calls::{Verdict, compare};
use crate::entry::{Entry, Planted};
use corpus::{Count, counted, front, over_entries, read_front};
use std::io::{Print, Read};

// Bytes of a sheet and of a copy buffer at most.
const ROOM: usize = 20000;

const WORK_ROOM: usize = 12000;

// The entries that are right, of which none is to differ, and how many were not left clean where nothing was changed; those that have a
// wrong number, a wrong sheet or something changed.
#[derive(Clone, Copy, Default)]
struct Tally {
    changes: Count,
    unclean: u64,
    numbers: Count,
    sheets: Count,
    changed: Count,
}

impl Tally {
    // One entry more. What is planted by a number that is not known counts as a change.
    fn with(self, planted: Option<Planted>, v: Verdict) -> Tally {
        let unclean = counted(self.unclean, !v.clean);
        match planted {
            Some(Planted::Nothing) => Tally {
                changes: self.changes.with(!(v.numbers && v.sheet)),
                unclean,
                ..self
            },
            Some(Planted::WrongNumber) => Tally {
                numbers: self.numbers.with(!v.numbers),
                unclean,
                ..self
            },
            Some(Planted::WrongSheet) => Tally {
                sheets: self.sheets.with(v.numbers && !v.sheet),
                unclean,
                ..self
            },
            _ => Tally {
                changed: self.changed.with(v.numbers && !v.clean),
                ..self
            },
        }
    }
}

// Lends the fronts of the buffers; none where more is to be lent than there is.
fn lend<R: Read>(
    from: &mut R,
    e: Entry,
    sheet: &mut [u8],
    stated: &mut [u8],
    copy: &mut [u8],
    work: &mut [i32],
) -> Option<Verdict> {
    let sheet = sheet.get_mut(..e.sheet)?;
    let stated = stated.get_mut(..e.sheet)?;
    let copy = copy.get_mut(..e.copy)?;
    let work = work.get_mut(..e.work)?;
    compare(from, e, sheet, stated, copy, work)
}

// One entry more; none where the corpus does not hold it whole.
fn compare_next<R: Read>(
    from: &mut R,
    t: Tally,
    sheet: &mut [u8],
    stated: &mut [u8],
    copy: &mut [u8],
    work: &mut [i32],
) -> Option<Tally> {
    let e = Entry::from(front(from)?);
    read_front(from, sheet, e.sheet)?;
    let v = lend(from, e, sheet, stated, copy, work)?;
    Some(t.with(e.planted, v))
}

fn main(rt: HostRuntime) {
    let mut sheet = [0u8; ROOM];
    let mut stated = [0u8; ROOM];
    let mut copy = [0u8; ROOM];
    let mut work = [0i32; WORK_ROOM];
    let Some(t) = over_entries(&mut rt.stdin(), Tally::default(), |from, t| {
        compare_next(from, t, &mut sheet, &mut stated, &mut copy, &mut work)
    }) else {
        return;
    };
    let _ = print!(rt;
        "{} changes compared, {} differ, {} not left clean; noticed of what is planted: ",
        t.changes.all, t.changes.noticed, t.unclean
    );
    let _ = println!(rt;
        "{} wrong numbers, {} wrong sheets, {} changed buffers",
        t.numbers, t.sheets, t.changed
    );
}
