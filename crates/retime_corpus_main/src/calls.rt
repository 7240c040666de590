// The two calls on an entry's sheet, and what came of them.
use crate::buffers::{read_part, turn};
use crate::entry::{Entry, Planted};
use corpus::{FILLED, all_are, copy_bytes};
use retime::{change_times, preview_times};
use std::io::Read;

// What came of an entry: whether the numbers are the stated ones, whether the preview left the buffers zero and the sheet as it was,
// and whether the sheet after the change is the stated one.
#[derive(Clone, Copy)]
pub(crate) struct Verdict {
    pub(crate) numbers: bool,
    pub(crate) clean: bool,
    pub(crate) sheet: bool,
}

// Where something is to be changed: at the first of so many, at the last, or nowhere.
fn change_at(
    planted: Option<Planted>,
    first: Planted,
    last: Planted,
    length: usize,
) -> Option<usize> {
    if planted == Some(first) {
        Some(0)
    } else if planted == Some(last) {
        length.checked_sub(1)
    } else {
        None
    }
}

// Whether both buffers are all zeros.
fn cleared(planted: Option<Planted>, copy: &mut [u8], work: &mut [i32]) -> bool {
    if let Some(at) = change_at(planted, Planted::CopyFirst, Planted::CopyLast, copy.len()) {
        turn(copy, at);
    }
    if let Some(at) = change_at(planted, Planted::WorkFirst, Planted::WorkLast, work.len()) {
        if let Some(x) = work.get_mut(at) {
            *x = 1;
        }
    }
    all_are(copy, 0) && all_are(work, 0)
}

// Whether the sheet is as it was.
fn kept(planted: Option<Planted>, sheet: &mut [u8], before: &[u8]) -> bool {
    let Some(at) = change_at(
        planted,
        Planted::SheetFirst,
        Planted::SheetLast,
        sheet.len(),
    ) else {
        return *sheet == *before;
    };
    turn(sheet, at);
    let same = *sheet == *before;
    turn(sheet, at);
    same
}

// Whether both buffers hold no zero now.
fn fill_both(copy: &mut [u8], work: &mut [i32]) -> bool {
    copy.fill(FILLED);
    work.fill(i32::from(FILLED));
    all_are(copy, FILLED) && all_are(work, i32::from(FILLED))
}

// The preview: whether its numbers are the stated ones, and whether it left all clean. Buffers that were not full before it show nothing,
// and count as not clean.
fn preview(
    e: Entry,
    sheet: &mut [u8],
    before: &[u8],
    copy: &mut [u8],
    work: &mut [i32],
) -> (bool, bool) {
    let full = fill_both(copy, work);
    let a = preview_times(sheet, copy, work, e.asked);
    let clean = cleared(e.planted, copy, work);
    let same = kept(e.planted, sheet, before);
    (a == e.preview, full && clean && same)
}

// Both calls: the preview, then the change. The second buffer holds a copy of the sheet to compare with, then what the sheet is to be.
// None where the corpus does not hold the entry whole. The buffers stand side by side and in no struct: behind one reference the borrow
// checker does not cover that one is looked at while another is lent.
pub(crate) fn compare<R: Read>(
    from: &mut R,
    e: Entry,
    sheet: &mut [u8],
    stated: &mut [u8],
    copy: &mut [u8],
    work: &mut [i32],
) -> Option<Verdict> {
    copy_bytes(sheet, stated)?;
    let (numbers, clean) = preview(e, sheet, stated, copy, work);
    read_part(from, stated, e.at, e.otherwise)?;
    let c = change_times(sheet, e.asked);
    Some(Verdict {
        numbers: numbers && (c.refusal, c.place) == e.change,
        clean,
        sheet: *sheet == *stated,
    })
}
