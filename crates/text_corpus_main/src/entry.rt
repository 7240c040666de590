// One entry: what stands in its front, the call, and what came of it. Numbers are made wider by `as`: `usize` has no `From<u32>`, `u64`
// none of a `usize`, and a `try_from` would give an error that cannot come.
use convert::convert_text;
use corpus::{FILLED, Planted, bytes_at};

// Bytes of a front.
pub(crate) const FRONT: usize = 18;

// What is planted, if it is known, the text's length, the bytes that are lent, and the three numbers that are due: refusal, place, bytes
// written. They are numbers as the corpus states them, which the refusal is compared with as C gets it.
#[derive(Clone, Copy)]
pub(crate) struct Front {
    pub(crate) planted: Option<Planted>,
    pub(crate) text: usize,
    pub(crate) room: usize,
    numbers: [u64; 3],
}

impl From<[u8; FRONT]> for Front {
    fn from(b: [u8; FRONT]) -> Front {
        Front {
            planted: Planted::try_from(b[0]).ok(),
            text: u32::from_be_bytes(bytes_at(&b, 1)) as usize,
            room: u32::from_be_bytes(bytes_at(&b, 5)) as usize,
            numbers: [
                u64::from(b[9]),
                u64::from(u32::from_be_bytes(bytes_at(&b, 10))),
                u64::from(u32::from_be_bytes(bytes_at(&b, 14))),
            ],
        }
    }
}

// Whether the three numbers are the stated ones, and the sheet is, to the buffer's end.
#[derive(Clone, Copy)]
pub(crate) struct Verdict {
    pub(crate) numbers: bool,
    pub(crate) sheet: bool,
}

// The call, with the buffer filled before it.
pub(crate) fn compare(f: Front, text: &[u8], stated: &[u8], sheet: &mut [u8]) -> Verdict {
    sheet.fill(FILLED);
    let x = convert_text(text, sheet);
    let numbers = [u64::from(x.refusal), x.place as u64, x.written as u64];
    Verdict {
        numbers: numbers == f.numbers,
        sheet: *sheet == *stated,
    }
}
