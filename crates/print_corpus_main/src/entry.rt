// One entry: what stands in its front, the calls, and what came of them. Numbers are made wider by `as`: `usize` has no `From<u32>`, `u64`
// none of a `usize`, and a `try_from` would give an error that cannot come.
use convert::convert_text;
use corpus::{FILLED, all_are, bytes_at};
use print::{Printing, print_sheet};

// Bytes of a front.
pub(crate) const FRONT: usize = 22;

// The refusal of a text that does not fit, as C gets it.
const OUTPUT_FULL: u32 = 19;

// What is planted in an entry: one of the three numbers is wrong, or one byte of what the buffer is to hold. The error is the number
// itself, where it stands for nothing.
#[derive(Clone, Copy, PartialEq, Eq)]
pub(crate) enum Planted {
    Nothing,
    Number,
    Text,
}

impl TryFrom<u8> for Planted {
    type Error = u8;

    fn try_from(code: u8) -> Result<Planted, u8> {
        match code {
            0 => Ok(Planted::Nothing),
            1 => Ok(Planted::Number),
            2 => Ok(Planted::Text),
            _ => Err(code),
        }
    }
}

// What is planted, if it is known, the lengths of the sheet and of what is stated of the buffer, the bytes that are lent, and the three
// numbers that are due, as the corpus states them: the refusal is compared with the number that C gets.
#[derive(Clone, Copy)]
pub(crate) struct Front {
    pub(crate) planted: Option<Planted>,
    pub(crate) sheet: usize,
    pub(crate) stated: usize,
    pub(crate) room: usize,
    due: [u64; 3],
}

impl From<[u8; FRONT]> for Front {
    fn from(b: [u8; FRONT]) -> Front {
        Front {
            planted: Planted::try_from(b[0]).ok(),
            sheet: u32::from_be_bytes(bytes_at(&b, 1)) as usize,
            stated: u32::from_be_bytes(bytes_at(&b, 5)) as usize,
            room: u32::from_be_bytes(bytes_at(&b, 9)) as usize,
            due: [
                u64::from(b[13]),
                u64::from(u32::from_be_bytes(bytes_at(&b, 14))),
                u64::from(u32::from_be_bytes(bytes_at(&b, 18))),
            ],
        }
    }
}

// Of a sheet that is printed: whether its text is converted back to that sheet, and whether it is refused where one byte less is lent.
#[derive(Clone, Copy)]
pub(crate) struct Tried {
    pub(crate) back: bool,
    pub(crate) less: bool,
}

// Whether the three numbers are the stated ones, and the buffer is, to its end; and what was tried on it where the sheet is printed.
#[derive(Clone, Copy)]
pub(crate) struct Verdict {
    pub(crate) numbers: bool,
    pub(crate) text: bool,
    pub(crate) tried: Option<Tried>,
}

// Whether the buffer holds these bytes and zeros behind them.
fn holds(buffer: &[u8], bytes: &[u8]) -> bool {
    buffer
        .strip_prefix(bytes)
        .is_some_and(|rest| all_are(rest, 0))
}

fn same_answer(x: Printing, due: [u64; 3]) -> bool {
    due == [u64::from(x.refusal), x.place as u64, x.written as u64]
}

// Whether the text is converted to the sheet, with zeros behind it.
fn comes_back(text: &[u8], sheet: &[u8], buffer: &mut [u8]) -> bool {
    buffer.fill(FILLED);
    let x = convert_text(text, buffer);
    x.refusal == 0 && x.place == 0 && x.written == sheet.len() && holds(buffer, sheet)
}

// Whether the text of the sheet does not fit, with the buffer zeroed.
fn is_full(sheet: &[u8], text: &mut [u8]) -> bool {
    text.fill(FILLED);
    let x = print_sheet(sheet, text);
    x.refusal == OUTPUT_FULL && x.place == 0 && x.written == 0 && all_are(text, 0)
}

// Behind a call that wrote so many bytes: the text converted back, then the same call with one byte less.
fn tried_on(written: usize, sheet: &[u8], text: &mut [u8], buffer: &mut [u8]) -> Option<Tried> {
    let room = written.checked_sub(1)?;
    let back = comes_back(text.get(..written)?, sheet, buffer);
    let less = is_full(sheet, text.get_mut(..room)?);
    Some(Tried { back, less })
}

// The call, with the buffer filled before it, and what is tried behind it where the sheet is printed.
pub(crate) fn compare(
    f: Front,
    sheet: &[u8],
    stated: &[u8],
    text: &mut [u8],
    buffer: &mut [u8],
) -> Verdict {
    text.fill(FILLED);
    let x = print_sheet(sheet, text);
    let same = holds(text, stated);
    Verdict {
        numbers: same_answer(x, f.due),
        text: same,
        tried: if x.refusal == 0 {
            tried_on(x.written, sheet, text, buffer)
        } else {
            None
        },
    }
}
