// The loop over the stack.
ghost use Rattle.std.specs.Prelude.{◌≡◌, [], ◌∷◌, ◌-◌, ◌<◌, ◌≤◌, length};
ghost use Rattle.rules.specs.Search as S;
ghost use Rattle.rules.specs.Search.{unseen, fails};
ghost use Rattle.refusal.specs.Shape.{rule_of};
ghost use Rattle.state.specs.Shape.{sizes_of, state_of};
ghost use Rattle.state.specs.Cells.{AllTimed, decode, slot_of};
ghost use Rattle.reader.specs.Facts.{program_in};
ghost use Rattle.event.specs.Plan.{Ready};
ghost use Rattle.event.specs.Stack.{SameStack};
ghost use Rattle.search.specs.Run.{window_of, end_of};

use crate::taken::Taken;
use crate::turn::turn;
use event::plan::Plan;
use event::stack::Stack;
use field::Time;
use reader::MOST_PLACES;
use refusal::{Fault, Refusal};
use state::{NUMBERS_PER_STATE, State, store, take_slot};

// The earliest and the latest tick at which a run may finish.
#[derive(Clone, Copy)]
pub struct Window {
    pub low: Time,
    pub high: Time,
}

// The window that holds what was found so far and what a finished state adds.
#[tactic(auto, unfolding(rules::specs::Search::widen))]
fn widened(so_far: Option<Window>, added: Window) -> Option<Window>
    ensures { window_of result ≡ S.widen (window_of so_far) added.low.0 added.high.0 }
{
    match so_far {
        None => Some(added),
        Some(w) => Some(Window {
            low: w.low.min(added.low),
            high: w.high.max(added.high),
        }),
    }
}

// How a search ends: the steps it took, and the window it found, if any, or why it was refused.
#[derive(Clone, Copy)]
pub struct Outcome {
    pub steps: u32,
    pub end: Result<Option<Window>, Fault>,
}

pub(crate) fn refused(steps: u32, fault: Fault) -> Outcome
    ensures { end_of result ≡ fails (rule_of fault.refusal) fault.place steps }
{
    Outcome {
        steps,
        end: Err(fault),
    }
}

// The numbers of the state that lies on top. A function of its own: where the loop lends the buffer out of its `&mut Stack`, no more than
// the length is known of it afterwards.
fn top(stack: &Stack) -> [i32; NUMBERS_PER_STATE]
    requires { (0 < stack.now.height) × (stack.now.height ≤ stack.now.slots) }
    ensures { (decode result ≡ decode (slot_of stack.now.work.now (stack.now.height - 1))) × AllTimed (decode result) }
{
    take_slot(stack.work, stack.height - 1)
}

// The search from a first state on, which goes to the bottom of the stack. Its loop is a `while`: it goes over a stack that grows and
// shrinks, and no count says when that is empty.
pub(crate) fn search(
    sheet: &[u8],
    places: &[u16; MOST_PLACES],
    plan: Plan,
    first: State,
    budget: u32,
    stack: &mut Stack,
) -> Outcome
    requires { Ready sheet.now plan places.now × AllTimed first }
    ensures same { SameStack stack.old stack.new }
    ensures result_value { end_of result
        ≡ S.search budget (program_in sheet.now) stack.old.slots (state_of (sizes_of (program_in sheet.now)) first ∷ []) unseen 0 }
    ensures work_len_unchanged { length stack.new.work.now ≡ length stack.old.work.now }
{
    store(stack.work, 0, first);
    stack.height = 1;
    let mut steps: u32 = 0;
    let mut found: Option<Window> = None;
    while 0 < stack.height {
        if steps == budget {
            return refused(steps, Fault::from(Refusal::OutOfSteps));
        }
        let cells = top(stack);
        stack.height -= 1;
        let taken = Taken {
            sheet,
            places,
            plan,
            cells: &cells,
        };
        steps += 1;
        match turn(&taken, stack) {
            Err(fault) => return refused(steps, fault),
            Ok(Some(w)) => found = widened(found, w),
            Ok(None) if stack.slots < stack.height => {
                return refused(steps, Fault::from(Refusal::OutOfRoom));
            }
            Ok(None) => {}
        }
    }
    let end = Ok(found);
    Outcome { steps, end }
}
