// One event of a record, by value: its full tick is recovered, it is held to the rule for runs, and its statement takes effect.
// `as u16` of a remainder: std has no `From` for it, and `try_from` would give an `Err` that cannot come.
ghost use Rattle.std.specs.Prelude.{◌≡◌, ◌+◌, ◌^◌, ◌<◌, length};
ghost use Rattle.rules.specs.Run.{step};
ghost use Rattle.field.specs.Decoded.{halts};
ghost use Rattle.recorded.specs.Follow as F;
ghost use Rattle.recorded.specs.Follow.{clock_at, tick_after, replayed};
ghost use Rattle.record.specs.Replay.{state_of, replay_of, replayed_of};
ghost use Rattle.record.specs.Sheet.{program_of, sizes_in, IsReady};
ghost use Rattle.record.specs.Step.{is_due, Asks};

use crate::act::{Event, act};
use crate::replay::Replay;
use crate::sheet::Sheet;
use crate::threads::{all_allow, fetch};
use field::decoding::Statement;
use field::{Time, is_halt};
use refusal::Refusal;

// Ticks after which the recorder's clock starts over at zero.
const CLOCK_TURN: u32 = 65536;

// What it shows at a tick.
fn clock_at(tick: Time) -> u16
    ensures { result ≡ clock_at tick.0 }
{
    (tick.0 % CLOCK_TURN) as u16
}

// The full tick of an event, from the one before it and the clock recorded with it.
#[tactic(auto, unfolding(recorded::specs::Follow::tick_after, recorded::specs::Follow::gap))]
fn tick_after(tick: Time, clock: u16) -> Time
    requires { tick.0 + 65535 < 2 ^ 32 }
    ensures { result.0 ≡ tick_after tick.0 clock }
{
    let gap = clock.wrapping_sub(clock_at(tick));
    Time(tick.0 + u32::from(gap))
}

// A thread at this clock, with this statement, is live, and the statement's least time has gone by at tick e.
fn is_due(clock: Time, f: Statement, e: Time) -> bool
    ensures { result ≡ is_due clock.0 (halts f.action) f.least.0 e.0 }
{
    !is_halt(f.action) && clock.0 <= e.0 && f.least.0 <= e.0 - clock.0
}

// Thread t ends its statement at tick e, where that is an event.
fn event(sheet: &Sheet, x: Replay, t: usize, e: Time) -> Result<Replay, Refusal>
    requires { IsReady sheet.now × (t < length (program_of sheet.now).threads) }
    ensures { replayed_of (sizes_in sheet.now) result
        ≡ replayed e.0 (step (program_of sheet.now) (state_of (sizes_in sheet.now) x) t e.0) }
{
    let f = fetch(sheet, &x, t);
    if !is_due(x.threads[t].clock, f.statement, e) || !all_allow(sheet, &x, e) {
        return Err(Refusal::NotRun);
    }
    let v = Event {
        thread: t,
        registers: usize::from(sheet.plan.entries[t].registers),
        tick: e,
    };
    act(sheet.bytes, x, v, f)
}

// An event of a record, by its thread and its clock.
pub(crate) fn replay(sheet: &Sheet, x: Replay, t: usize, clock: u16) -> Result<Replay, Refusal>
    requires { Asks sheet.now x }
    ensures { replayed_of (sizes_in sheet.now) result ≡ F.replay (program_of sheet.now) (replay_of (sizes_in sheet.now) x) t clock }
{
    if sheet.plan.threads <= t {
        return Err(Refusal::NoSuchName);
    }
    event(sheet, x, t, tick_after(x.tick, clock))
}
