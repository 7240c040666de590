// One step of a chain: the call, and what came of it.
use crate::step::{Call, Step};
use corpus::counted;
use retime::{change_times, take_back};

// What came of the steps so far: whether their numbers are the stated ones, and so is the sheet after each; and how many steps there were,
// with those of the chains before.
#[derive(Clone, Copy)]
pub(crate) struct Verdict {
    pub(crate) numbers: bool,
    pub(crate) sheet: bool,
    pub(crate) steps: u64,
}

// The step's bytes, as many as it says of the four, as far as the buffer goes.
fn put_bytes(buffer: &mut [u8], s: Step) {
    for (to, from) in buffer
        .iter_mut()
        .skip(s.at)
        .zip(s.bytes.iter().take(s.count))
    {
        *to = *from;
    }
}

// The refusal as C gets it, and as the corpus states it.
fn same_answer(refusal: u32, place: usize, s: Step) -> bool {
    refusal == s.refusal && place == s.place
}

// Whether the call's numbers are the stated ones.
fn call(s: Step, sheet: &mut [u8]) -> bool {
    match s.call {
        Call::ChangeTimes(asked) => {
            let c = change_times(sheet, asked);
            same_answer(c.refusal, c.place, s) && c.change == s.did
        }
        Call::TakeBack(change) => {
            let b = take_back(sheet, change);
            same_answer(b.refusal, b.place, s)
        }
        Call::Write => {
            put_bytes(sheet, s);
            true
        }
    }
}

pub(crate) fn compare_step(v: Verdict, s: Step, sheet: &mut [u8], stated: &mut [u8]) -> Verdict {
    let numbers = call(s, sheet);
    put_bytes(stated, s);
    Verdict {
        numbers: v.numbers && numbers,
        sheet: v.sheet && *sheet == *stated,
        steps: counted(v.steps, true),
    }
}
