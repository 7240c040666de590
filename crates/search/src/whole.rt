// The search of a whole sheet: it is read, searched from its starting state, and the buffer is cleared.
ghost use Rattle.std.specs.Prelude.{◌≡◌, ◌/◌, length, Ok};
ghost use Rattle.rules.specs.Constants.{numbers_per_state};
ghost use Rattle.rules.specs.Format.{read_sheet};
ghost use Rattle.rules.specs.Search.{search_from};
ghost use Rattle.rules.specs.Demands.{AllZeros, Unchanged};
ghost use Rattle.reader.specs.Index.{index_of};
ghost use Rattle.reader.specs.Facts.{program_in};
ghost use Rattle.event.specs.Stack.{SameStack};
ghost use Rattle.search.specs.Run.{end_of};
ghost use Rattle.search.specs.Whole.{end_with, search_of, searched_of};

use crate::run::{Outcome, refused, search};
use event::plan::Plan;
use event::stack::Stack;
use field::Time;
use reader::{Index, read_sheet};
use refusal::{Fault, Refusal};
use state::{NUMBERS_PER_STATE, clear, start};

// The ticks that a sheet's label allows. It is no `Window`: what is allowed never stands for what was found.
#[derive(Clone, Copy)]
pub struct Label {
    pub low: Time,
    pub high: Time,
}

// The label of a sheet that reads, and how its search ended.
#[derive(Clone, Copy)]
pub struct Searched {
    pub label: Label,
    pub outcome: Outcome,
}

// The search of a sheet that reads, by its index. It begins the stack anew, whatever that held.
// That the index is the sheet's is a clause and no ghost field of the two: a struct of both would be taken apart at once.
fn search_index(sheet: &[u8], index: Index, stack: &mut Stack) -> Outcome
    requires { index_of (read_sheet sheet.now) ≡ Ok index }
    ensures same { SameStack stack.old stack.new }
    ensures result_value { end_of result ≡ search_from (program_in sheet.now) stack.old.slots }
    ensures work_len_unchanged { length stack.new.work.now ≡ length stack.old.work.now }
{
    let first = start(sheet, index);
    let plan = Plan::from(&index);
    search(sheet, &index.places, plan, first, index.budget, stack)
}

// The same on the slots that the buffer has; where it has none, there is no room for the starting state.
#[tactic(auto, unfolding(crate::specs::Whole::end_with))]
fn search_slots(sheet: &[u8], index: Index, work: &mut [i32]) -> Outcome
    requires { index_of (read_sheet sheet.now) ≡ Ok index }
    ensures result_value { end_of result ≡ end_with (length work.old / numbers_per_state) (program_in sheet.now) }
    ensures work_len_unchanged { length work.new ≡ length work.old }
{
    let slots = work.len() / NUMBERS_PER_STATE;
    if slots == 0 {
        return refused(0, Fault::from(Refusal::OutOfRoom));
    }
    let mut stack = Stack {
        work,
        height: 0,
        slots,
    };
    search_index(sheet, index, &mut stack)
}

// Reads a sheet and searches it; the buffer is left as the search leaves it.
fn search_read(sheet: &[u8], work: &mut [i32]) -> Result<Searched, Fault>
    ensures result_value { searched_of result ≡ search_of (length work.old / numbers_per_state) (read_sheet sheet.now) }
    ensures work_len_unchanged { length work.new ≡ length work.old }
{
    let index = read_sheet(sheet)?;
    Ok(Searched {
        label: Label {
            low: index.label_low,
            high: index.label_high,
        },
        outcome: search_slots(sheet, index, work),
    })
}

// Searches any bytes on a buffer of any length, which is all zeros afterwards.
pub fn search_sheet(sheet: &[u8], work: &mut [i32]) -> Result<Searched, Fault>
    ensures result_value { searched_of result ≡ search_of (length work.old / numbers_per_state) (read_sheet sheet.now) }
    ensures all_zeros { AllZeros work.old work.new }
    ensures unchanged { Unchanged sheet.now sheet.now }
{
    let searched = search_read(sheet, work);
    clear(work);
    searched
}
