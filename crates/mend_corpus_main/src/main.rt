// Reads a corpus of garbled sheets from standard input (its form: tools/mend_corpus.rs): sheets, each with the room that is lent for the
// mended sheet and for the list of its changes, with the four numbers that are due and with all that both buffers are to hold. It prints
// how many it compared, and how many differ.
//
// Some entries are planted, so that the comparison itself is tried: one of their numbers is wrong, one byte of the mended sheet, or one
// number of the list. It prints how many there are of each, and how many of these it noticed.
#![tactic(auto)]

mod entry;

use crate::entry::{Front, Planted, Verdict, lend};
use corpus::{Count, front, over_entries, read_front};
use std::io::{Print, Read};

// Bytes of a sheet at most, and of all that is stated of both outputs.
const ROOM: usize = 20000;

const STATED: usize = 28000;

// Numbers that are lent at most.
const NUMBERS: usize = 2000;

// The entries that are right, of which none is to differ, and those that have a wrong number, a wrong sheet or a wrong list.
#[derive(Clone, Copy, Default)]
struct Tally {
    mends: Count,
    numbers: Count,
    sheets: Count,
    lists: Count,
}

impl Tally {
    // One entry more. Where one of three facts is planted, it alone does not hold.
    fn with(self, planted: Option<Planted>, v: Verdict) -> Tally {
        match planted {
            Some(Planted::Nothing) => Tally {
                mends: self.mends.with(!(v.numbers && v.sheet && v.list)),
                ..self
            },
            Some(Planted::Number) => Tally {
                numbers: self.numbers.with(!v.numbers && v.sheet && v.list),
                ..self
            },
            Some(Planted::Sheet) => Tally {
                sheets: self.sheets.with(v.numbers && !v.sheet && v.list),
                ..self
            },
            Some(Planted::List) => Tally {
                lists: self.lists.with(v.numbers && v.sheet && !v.list),
                ..self
            },
            None => self,
        }
    }
}

// The count with one entry more; none where the corpus does not hold it whole. The buffers stand side by side and in no struct: behind one
// reference the borrow checker does not cover that one is sliced while another is lent.
fn compare_next<R: Read>(
    from: &mut R,
    t: Tally,
    sheet: &mut [u8],
    stated: &mut [u8],
    mended: &mut [u8],
    changes: &mut [u32],
) -> Option<Tally> {
    let f = Front::from(front(from)?);
    read_front(from, sheet, f.sheet)?;
    read_front(from, stated, f.stated)?;
    let v = lend(f, &sheet[..f.sheet], &stated[..f.stated], mended, changes)?;
    Some(t.with(f.planted, v))
}

fn main(rt: HostRuntime) {
    let mut sheet = [0u8; ROOM];
    let mut stated = [0u8; STATED];
    let mut mended = [0u8; ROOM];
    let mut changes = [0u32; NUMBERS];
    let Some(t) = over_entries(&mut rt.stdin(), Tally::default(), |from, t| {
        compare_next(from, t, &mut sheet, &mut stated, &mut mended, &mut changes)
    }) else {
        return;
    };
    let _ = print!(rt;
        "{} mends compared, {} differ; noticed of what is planted: ",
        t.mends.all, t.mends.noticed
    );
    let _ = println!(rt;
        "{} wrong numbers, {} wrong sheets, {} wrong lists",
        t.numbers, t.sheets, t.lists
    );
}
