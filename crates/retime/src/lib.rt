// New times on one statement of a sheet, what the check would then answer (02, ticket 7), and the change taken back (ticket 8).
// `as u64` of a usize: std has no `From` for it, and `try_from` would give an `Err` that cannot come.
#![tactic(auto)]

ghost use Rattle.std.specs.Prelude.{◌≡◌};
ghost use Rattle.label.specs.Shape.{FiveIn};
ghost use Rattle.rules.specs.Base.{at_front};
ghost use Rattle.retimed.specs.Retime as Rule;
ghost use Rattle.retimed.specs.TakeBack as Back;
ghost use Rattle.retimed.specs.Claims.{ReadsRetimed, HoldsRetimed};
ghost use Rattle.retimed.specs.TakeBackClaims.{ComesBack, AllComeBack};
ghost use Rattle.retime.specs.Shape.{change_of, eight, EightIn, TwoIn, Leaves};

use label::put_answer;
use writing::put_front;

mod times; // which times a statement may have, and the four bytes that hold them
mod find; // a statement by its thread and its number
mod change; // the change
mod back; // the change taken back
mod preview; // the preview

pub use back::{TakenBack, take_back};
pub use change::{Asked, Change, Changed, change_times};
pub use preview::preview_times;

// The eight numbers of a change at the front of an array that has room for them.
fn put_change(c: Changed, answer: &mut [u64])
    ensures { answer.new ≡ at_front (eight c.refusal c.place (change_of c.change)) answer.old }
{
    put_front(
        answer,
        [
            u64::from(c.refusal),
            c.place as u64,
            c.change.thread as u64,
            c.change.statement as u64,
            c.change.old_least,
            c.change.old_greatest,
            c.change.new_least,
            c.change.new_greatest,
        ],
    );
}

// The change for callers in C and in Rust: the answer's eight numbers (refusal, place, then what it did: thread, statement, old least,
// old greatest, new least, new greatest) go to the front of a lent array, and the refusal is returned. An array of fewer than eight
// numbers is left as it is; the change is made all the same.
#[unsafe(no_mangle)]
pub extern "C" fn zumbeiry_change_times(
    sheet: &mut [u8],
    thread: usize,
    statement: usize,
    least: u64,
    greatest: u64,
    answer: &mut [u64],
) -> u32
    ensures eight_in { EightIn (Rule.change sheet.old thread statement least greatest) answer.old answer.new result }
    ensures sheet_after { sheet.new ≡ (Rule.change sheet.old thread statement least greatest).sheet }
    ensures reads_retimed { ReadsRetimed sheet.old thread statement least greatest }
    ensures comes_back { ComesBack sheet.old thread statement least greatest }
{
    let asked = Asked {
        thread,
        statement,
        least,
        greatest,
    };
    let c = change_times(sheet, asked);
    put_change(c, answer);
    c.refusal
}

// The taking back for callers in C and in Rust, of a change given by its six numbers: the answer's two (refusal, place) go to the front
// of a lent array, and the refusal is returned. An array of fewer than two numbers is left as it is; the change is taken back all the
// same.
#[unsafe(no_mangle)]
pub extern "C" fn zumbeiry_take_back(
    sheet: &mut [u8],
    thread: usize,
    statement: usize,
    old_least: u64,
    old_greatest: u64,
    new_least: u64,
    new_greatest: u64,
    answer: &mut [u64],
) -> u32
    ensures two_in { TwoIn (Back.take_back sheet.old (Rule.from_to thread statement old_least old_greatest new_least new_greatest))
        answer.old answer.new result }
    ensures sheet_after { sheet.new
        ≡ (Back.take_back sheet.old (Rule.from_to thread statement old_least old_greatest new_least new_greatest)).sheet }
    ensures all_come_back { AllComeBack sheet.old }
{
    let change = Change {
        thread,
        statement,
        old_least,
        old_greatest,
        new_least,
        new_greatest,
    };
    let b = take_back(sheet, change);
    put_front(answer, [u64::from(b.refusal), b.place as u64]);
    b.refusal
}

// The preview for callers in C and in Rust: the five numbers go to the front of a lent array, and the refusal is returned. An array of
// fewer than five numbers is left as it is; the copy and the work buffer are all zeros all the same.
#[unsafe(no_mangle)]
pub extern "C" fn zumbeiry_preview(
    sheet: &[u8],
    copy: &mut [u8],
    work: &mut [i32],
    thread: usize,
    statement: usize,
    least: u64,
    greatest: u64,
    answer: &mut [u64],
) -> u32
    ensures five_in { FiveIn (Rule.preview sheet.now copy.old work.old thread statement least greatest).answer
        answer.old answer.new result }
    ensures leaves { Leaves (Rule.preview sheet.now copy.old work.old thread statement least greatest) sheet.now copy.new work.new }
    ensures holds_retimed { result ≡ 0 → HoldsRetimed sheet.now thread statement least greatest
        (Rule.preview sheet.now copy.old work.old thread statement least greatest).answer }
{
    let asked = Asked {
        thread,
        statement,
        least,
        greatest,
    };
    let a = preview_times(sheet, copy, work, asked);
    put_answer(a, answer);
    a.refusal
}
