// One entry: what stands in its front, the call, and what came of it. Numbers are made wider by `as`: `usize` has no `From<u32>`, `u64`
// none of a `usize`, and a `try_from` would give an error that cannot come.
use corpus::{FILLED, bytes_at, two};
use mend::{Mending, mend_sheet};

// Bytes of a front.
pub(crate) const FRONT: usize = 24;

// What is planted in an entry: one of its numbers is wrong, one byte of the mended sheet, or one number of the list. The error is the
// number itself, where it stands for nothing.
#[derive(Clone, Copy, PartialEq, Eq)]
pub(crate) enum Planted {
    Nothing,
    Number,
    Sheet,
    List,
}

impl TryFrom<u8> for Planted {
    type Error = u8;

    fn try_from(code: u8) -> Result<Planted, u8> {
        match code {
            0 => Ok(Planted::Nothing),
            1 => Ok(Planted::Number),
            2 => Ok(Planted::Sheet),
            3 => Ok(Planted::List),
            _ => Err(code),
        }
    }
}

// What is planted, if it is known, the lengths of the sheet and of what is stated of both outputs, the bytes that are lent for the mended
// sheet, and the four numbers that are due, as the corpus states them: the refusal is compared with the number that C gets.
#[derive(Clone, Copy)]
pub(crate) struct Front {
    pub(crate) planted: Option<Planted>,
    pub(crate) sheet: usize,
    pub(crate) stated: usize,
    pub(crate) room: usize,
    due: [u64; 4],
}

impl From<[u8; FRONT]> for Front {
    fn from(b: [u8; FRONT]) -> Front {
        Front {
            planted: Planted::try_from(b[0]).ok(),
            sheet: u32::from_be_bytes(bytes_at(&b, 1)) as usize,
            stated: u32::from_be_bytes(bytes_at(&b, 5)) as usize,
            room: u32::from_be_bytes(bytes_at(&b, 9)) as usize,
            due: [
                u64::from(b[13]),
                two(b[14], b[15]),
                u64::from(u32::from_be_bytes(bytes_at(&b, 16))),
                u64::from(u32::from_be_bytes(bytes_at(&b, 20))),
            ],
        }
    }
}

// Whether the four numbers are the stated ones, and so are the mended sheet and the list, to the ends of both buffers.
#[derive(Clone, Copy)]
pub(crate) struct Verdict {
    pub(crate) numbers: bool,
    pub(crate) sheet: bool,
    pub(crate) list: bool,
}

// Whether each number is the one in the four bytes that are stated of it; where these end before, it is not.
fn same_list(list: &[u32], stated: &[u8]) -> bool {
    let (fours, _) = stated.as_chunks::<4>();
    list.len() <= fours.len()
        && list
            .iter()
            .zip(fours)
            .all(|(n, bytes)| *n == u32::from_be_bytes(*bytes))
}

fn numbers_of(m: Mending) -> [u64; 4] {
    [
        u64::from(m.refusal),
        m.place as u64,
        m.written as u64,
        m.listed as u64,
    ]
}

// The call, with both buffers filled before it.
fn compare(
    f: Front,
    sheet: &[u8],
    stated: &[u8],
    numbers: &[u8],
    mended: &mut [u8],
    changes: &mut [u32],
) -> Verdict {
    mended.fill(FILLED);
    changes.fill(u32::from(FILLED));
    let m = mend_sheet(sheet, mended, changes);
    Verdict {
        numbers: numbers_of(m) == f.due,
        sheet: *mended == *stated,
        list: same_list(changes, numbers),
    }
}

// The same with the fronts of both buffers; none where they have too little room, or less is stated of them.
pub(crate) fn lend(
    f: Front,
    sheet: &[u8],
    stated: &[u8],
    mended: &mut [u8],
    changes: &mut [u32],
) -> Option<Verdict> {
    let (bytes, numbers) = stated.split_at_checked(f.room)?;
    let lent = mended.get_mut(..f.room)?;
    let listed = changes.get_mut(..numbers.len() / 4)?;
    Some(compare(f, sheet, bytes, numbers, lent, listed))
}
