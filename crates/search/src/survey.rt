// The threads of a state at the beginning of a turn, from the last to the first.
ghost use Rattle.std.specs.Prelude.{◌≡◌, ◌+◌, ◌<◌};
ghost use Rattle.rules.specs.Constants.{half32, most_threads};
ghost use Rattle.state.specs.Cells.{decode};
ghost use Rattle.field.specs.Decoded.{halts};
ghost use Rattle.search.specs.Taken.{IsReady};
ghost use Rattle.search.specs.Survey.{SurveysFrom, LockThere, waits_at, add_live, add_clock, add_thread, earliest_of, EarliestFrom};

use crate::taken::Taken;
use event::locking::may_take;
use field::decoding::Statement;
use field::{Action, Time, is_halt};
use reader::MOST_THREADS;
use state::{Clock, NUMBERS_PER_STATE, clock_of, owner_of};

// Whether every live thread waits for a lock; the turn's bound, where some thread is live; the greatest clock low and high. `waiting` is
// no flag for `bound`: it is an answer of its own, and true where no thread is live.
#[derive(Clone, Copy)]
pub(crate) struct Survey {
    pub waiting: bool,
    pub bound: Option<Time>,
    pub low: Time,
    pub high: Time,
}

// The survey of a state's threads, and of each thread the earliest tick of its event; one that halts has none. The ticks are an array by
// the thread's number, as the entries of an index and the threads of a state are.
#[derive(Clone, Copy)]
pub(crate) struct Threads {
    pub survey: Survey,
    pub earliest: [Option<Time>; MOST_THREADS],
}

// The tick so many ticks after a clock's.
fn tick_after(clock: Time, ticks: Time) -> Time
    requires { (clock.0 < half32) × (ticks.0 < 65536) }
    ensures { result.0 ≡ clock.0 + ticks.0 }
{
    Time(clock.0 + ticks.0)
}

// Thread t stands at a lock that another owns.
fn waits(t: usize, action: Action, cells: &[i32; NUMBERS_PER_STATE]) -> bool
    requires { (t < most_threads) × LockThere action }
    ensures { result ≡ waits_at t action (decode cells.now).owners }
{
    matches!(action, Action::Lock(l) if !may_take(t, owner_of(cells, l)))
}

impl Survey {
    // One more live thread: its last tick, and whether it waits.
    fn with_live(self, due: Time, waits: bool) -> Survey
        ensures { result ≡ add_live self due waits }
    {
        Survey {
            waiting: waits && self.waiting,
            bound: Some(self.bound.map_or(due, |bound| due.min(bound))),
            ..self
        }
    }

    fn with_clock(self, clock: Clock) -> Survey
        ensures { result ≡ add_clock self clock }
    {
        Survey {
            low: clock.low.max(self.low),
            high: clock.high.max(self.high),
            ..self
        }
    }

    // One more thread.
    #[tactic(auto, unfolding(crate::specs::Survey::add_thread))]
    fn with_thread(
        self,
        t: usize,
        clock: Clock,
        x: Statement,
        cells: &[i32; NUMBERS_PER_STATE],
    ) -> Survey
        requires { (t < most_threads) × ((clock.high.0 < half32) × ((x.greatest.0 < 65536) × LockThere x.action)) }
        ensures { result ≡ add_thread self t clock x (decode cells.now).owners }
    {
        let seen = self.with_clock(clock);
        if is_halt(x.action) {
            return seen;
        }
        let due = tick_after(clock.high, x.greatest);
        seen.with_live(due, waits(t, x.action, cells))
    }
}

fn earliest_tick(clock: Clock, x: Statement) -> Option<Time>
    requires { (clock.low.0 < half32) × (x.least.0 < 65536) }
    ensures { result ≡ earliest_of (halts x.action) clock.low.0 x.least.0 }
{
    if is_halt(x.action) {
        return None;
    }
    Some(tick_after(clock.low, x.least))
}

pub(crate) fn survey_threads(taken: &Taken) -> Threads
    requires { IsReady taken.now }
    ensures surveys { SurveysFrom taken.now 0 result.survey }
    ensures earliest_from { EarliestFrom taken.now 0 result.earliest }
{
    let mut survey = Survey {
        waiting: true,
        bound: None,
        low: Time(0),
        high: Time(0),
    };
    let mut earliest: [Option<Time>; MOST_THREADS] = [None; MOST_THREADS];
    // By t, which is the thread's number and not only an index: its statement and its clock are found by it.
    for t in (0..taken.plan.threads).rev() {
        let f = taken.fetch(t);
        let clock = clock_of(taken.cells, t);
        survey = survey.with_thread(t, clock, f.statement, taken.cells);
        earliest[t] = earliest_tick(clock, f.statement);
    }
    Threads { survey, earliest }
}
