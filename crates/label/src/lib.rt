// The call that checks a sheet: a sheet and a lent work buffer in, five numbers out, and the buffer all zeros.
#![tactic(auto)]

ghost use Rattle.std.specs.Prelude.{◌≡◌, ◌&&◌, leb, length};
ghost use Rattle.rules.specs.Base.{at_front};
ghost use Rattle.rules.specs.Search as S;
ghost use Rattle.rules.specs.Search.{judge, finds, seen};
ghost use Rattle.rules.specs.Demands.{AllZeros, Unchanged, FollowsTheRules, WindowInside, HoldsOfSheet};
ghost use Rattle.search.specs.Run.{window_of, end_of};
ghost use Rattle.search.specs.Whole.{searched_of};
ghost use Rattle.label.specs.Shape.{answer_of, five_of, answer_to, WindowOf, listed, FiveIn};

use refusal::{Fault, Refusal};
use search::{Label, Outcome, Searched, Window, search_sheet};
use writing::put_front;

// Refusal 0 is acceptance; low and high are then the window of finishing ticks. These are the numbers that C gets, and no `Refusal` or
// `Window`: 0 is no refusal, and a sheet that is refused for its label has a window too.
#[derive(Clone, Copy, PartialEq, Eq)]
pub struct Answer {
    pub refusal: u32,
    pub place: usize,
    pub steps: u32,
    pub low: u32,
    pub high: u32,
}

// An answer without a window. The refusal is a number and no `Refusal`, since this is public and takes any number.
pub fn refused(refusal: u32, place: usize, steps: u32) -> Answer
    ensures { result ≡ five_of refusal place steps 0 0 }
{
    Answer {
        refusal,
        place,
        steps,
        low: 0,
        high: 0,
    }
}

// An answer with a window: here ticks become two of the five numbers. The refusal is a number, since 0 says that there is none.
fn five(refusal: u32, steps: u32, w: Window) -> Answer
    ensures { result ≡ five_of refusal 0 steps w.low.0 w.high.0 }
{
    Answer {
        refusal,
        place: 0,
        steps,
        low: w.low.0,
        high: w.high.0,
    }
}

// Whether the window lies inside the label.
fn inside(label: Label, w: Window) -> bool
    ensures { result ≡ (leb label.low.0 w.low.0 && leb w.high.0 label.high.0) }
{
    label.low <= w.low && w.high <= label.high
}

// The answer to a window, by the label.
#[tactic(auto, unfolding(rules::specs::Search::judge))]
fn by_label(label: Label, steps: u32, w: Window) -> Answer
    ensures { answer_of result ≡ judge label.low.0 label.high.0 (finds steps (seen w.low.0 w.high.0)) }
{
    if inside(label, w) {
        return five(0, steps, w);
    }
    five(u32::from(Refusal::LabelBroken), steps, w)
}

// The answer to a search that ended without a refusal. It has found a window; one that had not would be refused.
#[tactic(auto, unfolding(rules::specs::Search::judge))]
fn found(label: Label, steps: u32, window: Option<Window>) -> Answer
    ensures { answer_of result ≡ judge label.low.0 label.high.0 (finds steps (window_of window)) }
{
    match window {
        Some(w) => by_label(label, steps, w),
        None => refused(u32::from(Refusal::LabelBroken), 0, steps),
    }
}

// The answer to a search that ended.
#[tactic(auto, unfolding(rules::specs::Search::judge))]
fn judged(label: Label, o: Outcome) -> Answer
    ensures { answer_of result ≡ judge label.low.0 label.high.0 (end_of o) }
{
    match o.end {
        Err(fault) => refused(u32::from(fault.refusal), fault.place, o.steps),
        Ok(window) => found(label, o.steps, window),
    }
}

// The answer to the search of a sheet.
fn answered(searched: Result<Searched, Fault>) -> Answer
    ensures { answer_of result ≡ answer_to (searched_of searched) }
{
    match searched {
        Err(fault) => refused(u32::from(fault.refusal), fault.place, 0),
        Ok(searched) => judged(searched.label, searched.outcome),
    }
}

// Whether the label may stay on a sheet. The buffer may be of any length; it is all zeros afterwards, in every case.
pub fn check(sheet: &[u8], work: &mut [i32]) -> Answer
    ensures follows_the_rules { FollowsTheRules sheet.now work.old (answer_of result) }
    ensures window_inside { result.refusal ≡ 0 → WindowInside sheet.now (answer_of result) }
    ensures holds_of_sheet { result.refusal ≡ 0 → HoldsOfSheet sheet.now }
    ensures all_zeros { AllZeros work.old work.new }
    ensures unchanged { Unchanged sheet.now sheet.now }
{
    answered(search_sheet(sheet, work))
}

// The five numbers in the order refusal, place, steps, low, high, at the front of a lent array. An array of fewer than five numbers is
// left as it is. The place goes by `as`: std has no `From` for it, and `try_from` would give an `Err` that cannot come.
pub fn put_answer(a: Answer, numbers: &mut [u64])
    ensures { numbers.new ≡ at_front (listed (answer_of a)) numbers.old }
{
    put_front(
        numbers,
        [
            u64::from(a.refusal),
            a.place as u64,
            u64::from(a.steps),
            u64::from(a.low),
            u64::from(a.high),
        ],
    )
}

// The check for callers in C and in Rust: the refusal is returned, and the five numbers go to the front of a lent array. An array of
// fewer than five numbers is left as it is; the work buffer is all zeros all the same.
#[unsafe(no_mangle)]
pub extern "C" fn zumbeiry_check(sheet: &[u8], work: &mut [i32], answer: &mut [u64]) -> u32
    ensures five_in { FiveIn (S.answer sheet.now (length work.old)) answer.old answer.new result }
    ensures window_of { result ≡ 0 → WindowOf sheet.now work.old }
    ensures holds_of_sheet { result ≡ 0 → HoldsOfSheet sheet.now }
    ensures all_zeros { AllZeros work.old work.new }
    ensures unchanged { Unchanged sheet.now sheet.now }
{
    let a = check(sheet, work);
    put_answer(a, answer);
    a.refusal
}
