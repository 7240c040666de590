// A step of a chain as the corpus has it. Numbers are made wider by `as`: `usize` has no `From<u64>`, and a `try_from` would give an error
// that cannot come.
ghost use Rattle.std.specs.Prelude.{◌+◌, ◌≤◌};

use corpus::{bytes_at, two};
use retime::{Asked, Change};

// Bytes of a step.
pub(crate) const BYTES: usize = 107;

// What a step does to the sheet: new times, a change taken back, or bytes that someone else writes.
#[derive(Clone, Copy)]
pub(crate) enum Call {
    ChangeTimes(Asked),
    TakeBack(Change),
    Write,
}

// The call, and what is stated of its answer, its refusal as C gets it; then which bytes the sheet has from `at` on after the step, `count`
// of four: there is no heap for fewer.
#[derive(Clone, Copy)]
pub(crate) struct Step {
    pub(crate) call: Call,
    pub(crate) refusal: u32,
    pub(crate) place: usize,
    pub(crate) did: Change,
    pub(crate) at: usize,
    pub(crate) count: usize,
    pub(crate) bytes: [u8; 4],
}

// The six numbers from this place on.
fn change_at(b: &[u8; BYTES], at: usize) -> Change
    requires { at + 48 ≤ BYTES }
{
    Change {
        thread: u64::from_be_bytes(bytes_at(b, at)) as usize,
        statement: u64::from_be_bytes(bytes_at(b, at + 8)) as usize,
        old_least: u64::from_be_bytes(bytes_at(b, at + 16)),
        old_greatest: u64::from_be_bytes(bytes_at(b, at + 24)),
        new_least: u64::from_be_bytes(bytes_at(b, at + 32)),
        new_greatest: u64::from_be_bytes(bytes_at(b, at + 40)),
    }
}

// Of a change its thread, its statement and its times are given, least and greatest, in the places of the old ones; of a change taken
// back all of it. The kind is the corpus's byte, of which any other number writes bytes.
fn call_of(kind: u8, given: Change) -> Call {
    match kind {
        0 => Call::ChangeTimes(Asked {
            thread: given.thread,
            statement: given.statement,
            least: given.old_least,
            greatest: given.old_greatest,
        }),
        1 => Call::TakeBack(given),
        _ => Call::Write,
    }
}

impl From<[u8; BYTES]> for Step {
    fn from(b: [u8; BYTES]) -> Step {
        Step {
            call: call_of(b[0], change_at(&b, 1)),
            refusal: u32::from(b[49]),
            place: two(b[50], b[51]) as usize,
            did: change_at(&b, 52),
            at: two(b[100], b[101]) as usize,
            count: usize::from(b[102]),
            bytes: bytes_at(&b, 103),
        }
    }
}
