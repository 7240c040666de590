// An entry of the corpus. Numbers are made wider by `as`: `usize` has no `From<u32>` and none of a `u64`, and a `try_from` would give an
// error that cannot come.
use corpus::bytes_at;
use label::Answer;
use retime::Asked;

// The bytes of an entry before those of its sheet.
pub(crate) const FRONT: usize = 69;

// What is planted in an entry: one of its numbers is wrong, or the stated sheet; or after the preview the program changes the first byte
// of the copy buffer, its last, the first number of the work buffer, its last, the first byte of the sheet, its last. No corpus has
// another number there; one would count as a change that is not made. The error is that number.
#[derive(Clone, Copy, PartialEq, Eq)]
pub(crate) enum Planted {
    Nothing,
    WrongNumber,
    WrongSheet,
    CopyFirst,
    CopyLast,
    WorkFirst,
    WorkLast,
    SheetFirst,
    SheetLast,
}

impl TryFrom<u8> for Planted {
    type Error = u8;

    fn try_from(code: u8) -> Result<Planted, u8> {
        match code {
            0 => Ok(Planted::Nothing),
            1 => Ok(Planted::WrongNumber),
            2 => Ok(Planted::WrongSheet),
            3 => Ok(Planted::CopyFirst),
            4 => Ok(Planted::CopyLast),
            5 => Ok(Planted::WorkFirst),
            6 => Ok(Planted::WorkLast),
            7 => Ok(Planted::SheetFirst),
            8 => Ok(Planted::SheetLast),
            _ => Err(code),
        }
    }
}

// An entry but for the bytes of its sheet and of what is otherwise after the change, of which these are the lengths. The preview's
// five numbers are stated, then the change's refusal and place: refusals as C gets them.
#[derive(Clone, Copy)]
pub(crate) struct Entry {
    pub(crate) planted: Option<Planted>,
    pub(crate) sheet: usize,
    pub(crate) otherwise: usize,
    pub(crate) asked: Asked,
    pub(crate) copy: usize,
    pub(crate) work: usize,
    pub(crate) at: usize,
    pub(crate) preview: Answer,
    pub(crate) change: (u32, usize),
}

impl From<[u8; FRONT]> for Entry {
    fn from(b: [u8; FRONT]) -> Entry {
        Entry {
            planted: Planted::try_from(b[0]).ok(),
            sheet: u32::from_be_bytes(bytes_at(&b, 1)) as usize,
            otherwise: u32::from_be_bytes(bytes_at(&b, 5)) as usize,
            asked: Asked {
                thread: u64::from_be_bytes(bytes_at(&b, 9)) as usize,
                statement: u64::from_be_bytes(bytes_at(&b, 17)) as usize,
                least: u64::from_be_bytes(bytes_at(&b, 25)),
                greatest: u64::from_be_bytes(bytes_at(&b, 33)),
            },
            copy: u32::from_be_bytes(bytes_at(&b, 41)) as usize,
            work: u32::from_be_bytes(bytes_at(&b, 45)) as usize,
            at: usize::from(u16::from_be_bytes(bytes_at(&b, 49))),
            preview: Answer {
                refusal: u32::from(b[51]),
                place: usize::from(u16::from_be_bytes(bytes_at(&b, 52))),
                steps: u32::from_be_bytes(bytes_at(&b, 54)),
                low: u32::from_be_bytes(bytes_at(&b, 58)),
                high: u32::from_be_bytes(bytes_at(&b, 62)),
            },
            change: (
                u32::from(b[66]),
                usize::from(u16::from_be_bytes(bytes_at(&b, 67))),
            ),
        }
    }
}
