// A turn: what becomes of the state that was taken from the stack.
ghost use Rattle.std.specs.Prelude.{◌≡◌, ◌<◌, length, get_or};
ghost use Rattle.rules.specs.Constants.{half32, most_threads};
ghost use Rattle.rules.specs.Search as S;
ghost use Rattle.reader.specs.Index.{no_entry};
ghost use Rattle.state.specs.Cells.{AllTimed, decode};
ghost use Rattle.event.specs.Stack.{SameStack};
ghost use Rattle.search.specs.Taken.{IsReady, program_of, sizes_in, rules_state};
ghost use Rattle.search.specs.Survey.{earliest_at, EarliestFrom};
ghost use Rattle.search.specs.Turn.{Makes, MakesMore, Turns, over_of, event_of, events_in};

use crate::run::Window;
use crate::survey::{Threads, survey_threads};
use crate::taken::Taken;
use event::act::{Event, act};
use event::plan::Plan;
use event::stack::Stack;
use field::Time;
use reader::MOST_THREADS;
use refusal::{Fault, Refusal};

// What the event of a thread at a place makes of what the later threads made: of several faults the first thread's.
fn over(later: Result<(), Fault>, acted: Result<(), Refusal>, place: usize) -> Result<(), Fault>
    ensures { result ≡ over_of later acted place }
{
    acted.map_err(|refusal| Fault { refusal, place })?;
    later
}

// The event of thread t between two ticks.
fn event(plan: Plan, t: usize, from: Time, to: Time) -> Event
    requires { t < most_threads }
    ensures { result ≡ event_of (get_or plan.entries t no_entry).registers t from.0 to.0 }
{
    Event {
        thread: t,
        registers: usize::from(plan.entries[t].registers),
        from,
        to,
    }
}

// The event of thread t before what the later threads made.
fn before(
    taken: &Taken,
    t: usize,
    latest: Time,
    earliest: Option<Time>,
    bound: Time,
    later: Result<(), Fault>,
    stack: &mut Stack,
) -> Result<(), Fault>
    requires { IsReady taken.now × ((t < length (program_of taken.now).threads) × ((earliest ≡ earliest_at taken.now t)
        × ((bound.0 < half32) × (latest.0 < half32)))) }
    ensures same { SameStack stack.old stack.new }
    ensures makes { MakesMore taken.now latest.0 bound.0 t stack.old stack.new later result }
{
    let Some(earliest) = earliest else {
        return later;
    };
    let from = latest.max(earliest);
    let too_late = bound < from;
    if too_late {
        return later;
    }
    let f = taken.fetch(t);
    let v = event(taken.plan, t, from, bound);
    let acted = act(taken.sheet, taken.cells, v, f, stack);
    over(later, acted, f.place)
}

fn expand(
    taken: &Taken,
    latest: Time,
    earliest: [Option<Time>; MOST_THREADS],
    bound: Time,
    stack: &mut Stack,
) -> Result<(), Fault>
    requires { IsReady taken.now × (EarliestFrom taken.now 0 earliest × ((bound.0 < half32) × (latest.0 < half32))) }
    ensures same { SameStack stack.old stack.new }
    ensures makes { Makes (sizes_in taken.now) stack.old stack.new result (events_in taken.now latest.0 bound.0 0) }
{
    let mut made: Result<(), Fault> = Ok(());
    // By t, which is the thread's number and not only an index: its event is named by it.
    for t in (0..taken.plan.threads).rev() {
        made = before(taken, t, latest, earliest[t], bound, made, stack);
    }
    made
}

// The window of a state whose threads have all halted; none where the states that follow are on the stack.
pub(crate) fn turn(taken: &Taken, stack: &mut Stack) -> Result<Option<Window>, Fault>
    requires { IsReady taken.now × AllTimed (decode taken.now.cells.now) }
    ensures same { SameStack stack.old stack.new }
    ensures turns { Turns (sizes_in taken.now) stack.old stack.new result (S.turn (program_of taken.now) (rules_state taken.now)) }
{
    let Threads { survey, earliest } = survey_threads(taken);
    let Some(bound) = survey.bound else {
        return Ok(Some(Window {
            low: survey.low,
            high: survey.high,
        }));
    };
    if survey.waiting {
        return Err(Fault::from(Refusal::Stuck));
    }
    if taken.plan.limit < bound {
        return Err(Fault::from(Refusal::PastLimit));
    }
    expand(taken, survey.low, earliest, bound, stack)?;
    Ok(None)
}
