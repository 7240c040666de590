// Follows what the machine recorded: a sheet and a record in, and whether the record is a run of the sheet that leaves a state.
// `as u64` of a usize: std has no `From` for it, and `try_from` would give an `Err` that cannot come.
#![tactic(auto)]

ghost use Rattle.std.specs.Prelude.{◌≡◌};
ghost use Rattle.rules.specs.Demands.{Unchanged};
ghost use Rattle.recorded.specs.Follow as F;
ghost use Rattle.recorded.specs.Claims.{EndsInLabel};
ghost use Rattle.record.specs.Shape.{FiveIn};

use writing::put_front;

mod replay; // the replay state, by value
mod sheet; // a sheet that reads, with what following keeps of its index
mod threads; // the threads of a replay state
mod known; // expressions where every value is known
mod act; // what a statement does to the replay state
mod step; // one event of a record, by value
mod lent; // the same, on a state that is lent
mod events; // the events of a record
mod starting; // the starting values of a record
mod whole; // the follower

pub use whole::{File, Followed, follow};

// 0 for no, 1 for yes.
pub fn number_of_truth(fact: bool) -> u64
    ensures { result ≡ F.bit fact }
{
    u64::from(fact)
}

// The follower for callers in C and in Rust: the answer's five numbers (refusal, file, place, finished, tick) go to the front of a lent
// array, and the refusal is returned. An array of fewer than five numbers is left as it is.
#[unsafe(no_mangle)]
pub extern "C" fn zumbeiry_follow(sheet: &[u8], recorded: &[u8], answer: &mut [u64]) -> u32
    ensures five_in { FiveIn (F.follow sheet.now recorded.now) answer.old answer.new result }
    ensures ends_in_label { EndsInLabel sheet.now (F.follow sheet.now recorded.now) }
    ensures unchanged { Unchanged sheet.now sheet.now × Unchanged recorded.now recorded.now }
{
    let a = follow(sheet, recorded);
    put_front(
        answer,
        [
            u64::from(a.refusal),
            u64::from(a.file),
            a.place as u64,
            number_of_truth(a.finished),
            u64::from(a.tick),
        ],
    );
    a.refusal
}
