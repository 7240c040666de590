// Which times a statement may have, and the four bytes that hold them.
// `as u32` and `as u16`: each time is bounded before, std has no `From` for it, and `try_from` would give an `Err` that cannot come.
ghost use Rattle.std.specs.Prelude.{◌≡◌, ◌+◌, ◌≤◌, ◌<◌, length};
ghost use Rattle.retimed.specs.Retime.{retimed};
ghost use Rattle.retime.specs.Shape.{may_by};

use field::{Time, times_fit};

const GREATEST_TIME: u64 = 65535;

// Both times of a statement, as they are asked for.
#[derive(Clone, Copy)]
pub(crate) struct Times {
    pub least: u64,
    pub greatest: u64,
}

// Whether a statement of a code may have these times: what the reader asks of them, of numbers that two bytes hold.
#[tactic(auto, using(crate::proofs::Changing::times_reversed))]
pub(crate) fn may_have(code: usize, times: Times) -> bool
    ensures { result ≡ may_by code times.least times.greatest }
{
    times.least <= times.greatest
        && times.greatest <= GREATEST_TIME
        && times_fit(code, Time(times.least as u32), Time(times.greatest as u32))
}

// The times of the statement whose field stands at the place; no other byte is written.
pub(crate) fn write_times(sheet: &mut [u8], place: usize, times: Times)
    requires { (place + 7 ≤ length sheet.old) × (times.least < 65536) × (times.greatest < 65536) }
    ensures { sheet.new ≡ retimed sheet.old place times.least times.greatest }
{
    sheet[place + 3..place + 5].copy_from_slice(&(times.least as u16).to_be_bytes());
    sheet[place + 5..place + 7].copy_from_slice(&(times.greatest as u16).to_be_bytes());
}
