// Reads a corpus of printed sheets from standard input (its form: tools/print_corpus.rs): sheets, each with the room that is lent for its
// text, with the three numbers that are due and with all that the buffer is to hold. It prints how many it compared, how many differ, how
// many were printed, of how many of these the text is converted back to the very sheet, and how many are refused where one byte less is
// lent.
//
// Some entries are planted, so that the comparison itself is tried: one of their numbers is wrong, or one byte of the buffer. It prints how
// many there are of each, and how many of these it noticed.
#![tactic(auto)]

mod entry;

use crate::entry::{Front, Planted, Verdict, compare};
use corpus::{Count, counted, front, over_entries, read_front};
use std::io::{Print, Read};

// Bytes of a sheet at most, of what is stated, and of what is lent.
const SHEET: usize = 20000;

const STATED: usize = 98304;

const ROOM: usize = 110000;

// The entries that are right, of which none is to differ; how many of them are printed, come back, and are refused with a byte less; those
// that have a wrong number or a wrong text.
#[derive(Clone, Copy, Default)]
struct Tally {
    sheets: Count,
    printed: u64,
    back: u64,
    less: u64,
    numbers: Count,
    texts: Count,
}

impl Tally {
    // One entry more. A planted one is noticed where the fact that is planted does not hold, and the other does.
    fn with(self, planted: Option<Planted>, v: Verdict) -> Tally {
        match planted {
            Some(Planted::Nothing) => Tally {
                sheets: self.sheets.with(!(v.numbers && v.text)),
                printed: counted(self.printed, v.tried.is_some()),
                back: counted(self.back, v.tried.is_some_and(|x| x.back)),
                less: counted(self.less, v.tried.is_some_and(|x| x.less)),
                ..self
            },
            Some(Planted::Number) => Tally {
                numbers: self.numbers.with(!v.numbers && v.text),
                ..self
            },
            Some(Planted::Text) => Tally {
                texts: self.texts.with(!v.text && v.numbers),
                ..self
            },
            None => self,
        }
    }
}

// The count with one entry more; none where the corpus does not hold it whole, or where more is to be lent than there is. The buffers stand
// side by side and in no struct: behind one reference the borrow checker does not cover that one is sliced while another is lent.
fn compare_next<R: Read>(
    from: &mut R,
    t: Tally,
    sheet: &mut [u8],
    stated: &mut [u8],
    text: &mut [u8],
    buffer: &mut [u8],
) -> Option<Tally> {
    let f = Front::from(front(from)?);
    read_front(from, sheet, f.sheet)?;
    read_front(from, stated, f.stated)?;
    let lent = text.get_mut(..f.room)?;
    let v = compare(f, &sheet[..f.sheet], &stated[..f.stated], lent, buffer);
    Some(t.with(f.planted, v))
}

fn main(rt: HostRuntime) {
    let mut sheet = [0u8; SHEET];
    let mut stated = [0u8; STATED];
    let mut text = [0u8; ROOM];
    let mut buffer = [0u8; SHEET];
    let Some(t) = over_entries(&mut rt.stdin(), Tally::default(), |from, t| {
        compare_next(from, t, &mut sheet, &mut stated, &mut text, &mut buffer)
    }) else {
        return;
    };
    let _ = print!(rt;
        "{} sheets compared, {} differ; {} printed, {} came back, ",
        t.sheets.all, t.sheets.noticed, t.printed, t.back
    );
    let _ = println!(rt;
        "{} refused with a byte less; noticed of what is planted: {} wrong numbers, {} wrong texts",
        t.less, t.numbers, t.texts
    );
}
