// Reads a corpus of texts from standard input (its form: tools/text_corpus.rs): texts, each with the room that is lent for the sheet, with
// the three numbers that are due and with all that the buffer is to hold. It prints how many it compared, and how many differ.
//
// Some entries are planted, so that the comparison itself is tried: one of their numbers is wrong, or one byte of the sheet. It prints how
// many there are of each, and how many of these it noticed.
#![tactic(auto)]

mod entry;

use crate::entry::{Front, Verdict, compare};
use corpus::{Count, Planted, front, over_entries, read_front};
use std::io::{Print, Read};

// Bytes of a text at most, and of what is lent.
const TEXT: usize = 70000;

const ROOM: usize = 20000;

// The entries that are right, of which none is to differ, and those that have a wrong number or a wrong sheet.
#[derive(Clone, Copy, Default)]
struct Tally {
    texts: Count,
    numbers: Count,
    sheets: Count,
}

impl Tally {
    // One entry more. Of two facts the one that is planted does not hold, the other does.
    fn with(self, planted: Option<Planted>, v: Verdict) -> Tally {
        match planted {
            Some(Planted::Nothing) => Tally {
                texts: self.texts.with(!v.numbers || !v.sheet),
                ..self
            },
            Some(Planted::WrongNumber) => Tally {
                numbers: self.numbers.with(!v.numbers && v.sheet),
                ..self
            },
            Some(Planted::WrongSheet) => Tally {
                sheets: self.sheets.with(!v.sheet && v.numbers),
                ..self
            },
            None => self,
        }
    }
}

// One entry more; none where the corpus does not hold it whole.
fn compare_next<R: Read>(
    from: &mut R,
    t: Tally,
    text: &mut [u8],
    stated: &mut [u8],
    sheet: &mut [u8],
) -> Option<Tally> {
    let f = Front::from(front(from)?);
    read_front(from, text, f.text)?;
    read_front(from, stated, f.room)?;
    let lent = sheet.get_mut(..f.room)?;
    let v = compare(f, &text[..f.text], &stated[..f.room], lent);
    Some(t.with(f.planted, v))
}

fn main(rt: HostRuntime) {
    let mut text = [0u8; TEXT];
    let mut stated = [0u8; ROOM];
    let mut sheet = [0u8; ROOM];
    let Some(t) = over_entries(&mut rt.stdin(), Tally::default(), |from, t| {
        compare_next(from, t, &mut text, &mut stated, &mut sheet)
    }) else {
        return;
    };
    let _ = println!(rt;
        "{} texts compared, {} differ; noticed of what is planted: {} wrong numbers, {} wrong sheets",
        t.texts.all, t.texts.noticed, t.numbers, t.sheets
    );
}
