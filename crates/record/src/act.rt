// What the statement of an event does to the replay state: by value, over known values. `event::act` is another, over spans and into a
// slot of lent numbers; whom a lock goes to is `event::locking`'s for both.
// `target as u8`: std has no `From` for it, and `try_from` would give an `Err` that cannot come.
// `Stands` is a `requires` and no ghost field: it is of the state and the event together, and the state is written in between.
ghost use Rattle.std.specs.Prelude.{◌≡◌, suc, ◌<◌, ◌≤◌, false, length, slice_set};
ghost use Rattle.rules.specs.Constants.{deepest, most_threads, most_statements, most_registers, most_variables, most_locks};
ghost use Rattle.rules.specs.Program as P;
ghost use Rattle.rules.specs.Program.{is_halt, Statement};
ghost use Rattle.rules.specs.Format.{got, read_arith, read_condition};
ghost use Rattle.state.specs.Shape.{Sizes, sizes_of};
ghost use Rattle.reader.specs.Facts.{program_in};
ghost use Rattle.event.specs.Fetch.{names_of, Fetches, OfProgram};
ghost use Rattle.record.specs.Replay.{thread_at, replay_of, stood};
ghost use Rattle.record.specs.Act.{Acts, Sized, Stands};

use crate::known::{truth_of, value_of};
use crate::replay::{Replay, RunThread};
use event::fetch::{Fetched, next};
use event::locking::{after_unlock, may_take, owner};
use field::{Action, Time};
use interval::Val;
use refusal::Refusal;

// Thread t, which has so many registers, ends its statement at a tick.
#[derive(Clone, Copy)]
pub(crate) struct Event {
    pub thread: usize,
    pub registers: usize,
    pub tick: Time,
}

// The thread comes to a statement, its clock at the event, which is the last one.
fn come_to(mut x: Replay, v: Event, at: u8) -> Replay
    requires { v.thread < most_threads }
    ensures { (z : Sizes) → replay_of z result ≡ stood z x v.thread at v.tick.0 (thread_at x v.thread).regs x.vars x.owners }
{
    x.threads[v.thread] = RunThread {
        at,
        clock: v.tick,
        ..x.threads[v.thread]
    };
    x.tick = v.tick;
    x
}

// The thread comes to its next statement.
fn move_on(x: Replay, v: Event) -> Replay
    requires { Stands x v }
    ensures { (z : Sizes)
        → replay_of z result ≡ stood z x v.thread (suc (thread_at x v.thread).at) v.tick.0 (thread_at x v.thread).regs x.vars x.owners }
{
    come_to(x, v, next(x.threads[v.thread].at))
}

fn skip(x: Replay, v: Event) -> Replay
    requires { Stands x v }
    ensures { (z : Sizes) → Sized z v → Acts z x v P.skip (Ok result) }
{
    move_on(x, v)
}

fn write_register(mut x: Replay, v: Event, r: usize, k: Val) -> Replay
    requires { Stands x v × (r < most_registers) }
    ensures { (z : Sizes) → replay_of z result
        ≡ stood z x v.thread (suc (thread_at x v.thread).at) v.tick.0 (slice_set (thread_at x v.thread).regs r k) x.vars x.owners }
{
    x.threads[v.thread].regs[r] = k;
    move_on(x, v)
}

fn assign(
    sheet: &[u8],
    x: Replay,
    v: Event,
    r: usize,
    at: usize,
    end: usize,
) -> Result<Replay, Refusal>
    requires { Stands x v × ((r < most_registers) × ((v.registers ≤ most_registers) × (end ≤ length sheet.now))) }
    ensures { (z : Sizes) (a : P.Arith) → Sized z v → read_arith deepest sheet.now end v.registers at ≡ got a end
        → Acts z x v (P.assign r a) result }
{
    let k = value_of(sheet, at, end, v.registers, x.threads[v.thread].regs)?;
    Ok(write_register(x, v, r, k))
}

fn branch(
    sheet: &[u8],
    x: Replay,
    v: Event,
    target: usize,
    at: usize,
    end: usize,
) -> Result<Replay, Refusal>
    requires { Stands x v × ((target < most_statements) × ((v.registers ≤ most_registers) × (end ≤ length sheet.now))) }
    ensures { (z : Sizes) (a : P.Condition) → Sized z v → read_condition deepest sheet.now end v.registers at ≡ got a end
        → Acts z x v (P.branch target a) result }
{
    let th = x.threads[v.thread];
    let holds = truth_of(sheet, at, end, v.registers, th.regs)?;
    let to = if holds { target as u8 } else { next(th.at) };
    Ok(come_to(x, v, to))
}

fn store(mut x: Replay, v: Event, r: usize, k: usize) -> Replay
    requires { Stands x v × ((r < most_registers) × (k < most_variables)) }
    ensures { (z : Sizes) → Sized z v → r < v.registers → Acts z x v (P.store r k) (Ok result) }
{
    x.vars[k] = x.threads[v.thread].regs[r];
    move_on(x, v)
}

fn load(x: Replay, v: Event, r: usize, k: usize) -> Replay
    requires { Stands x v × ((r < most_registers) × (k < most_variables)) }
    ensures { (z : Sizes) → Sized z v → k < z.vars → Acts z x v (P.load r k) (Ok result) }
{
    write_register(x, v, r, x.vars[k])
}

fn unlock(mut x: Replay, v: Event, l: usize) -> Replay
    requires { Stands x v × (l < most_locks) }
    ensures { (z : Sizes) → Sized z v → l < z.locks → Acts z x v (P.unlock l) (Ok result) }
{
    x.owners[l] = after_unlock(v.thread, x.owners[l]);
    move_on(x, v)
}

// A lock that another owns: the thread stays, with its clock at the event.
fn lock(mut x: Replay, v: Event, l: usize) -> Replay
    requires { Stands x v × (l < most_locks) }
    ensures { (z : Sizes) → Sized z v → l < z.locks → Acts z x v (P.lock l) (Ok result) }
{
    if !may_take(v.thread, x.owners[l]) {
        return come_to(x, v, x.threads[v.thread].at);
    }
    x.owners[l] = owner(v.thread);
    move_on(x, v)
}

// The statement f takes effect.
pub(crate) fn act(sheet: &[u8], x: Replay, v: Event, f: Fetched) -> Result<Replay, Refusal>
    requires { OfProgram (program_in sheet.now) v.thread v.registers
        × ((s : Statement) × Fetches sheet.now (names_of (program_in sheet.now) v.thread) (thread_at x v.thread).at s f) }
    ensures { (s : Statement) → Fetches sheet.now (names_of (program_in sheet.now) v.thread) (thread_at x v.thread).at s f
        → is_halt s.action ≡ false → Acts (sizes_of (program_in sheet.now)) x v s.action result }
{
    match f.statement.action {
        Action::Halt => Ok(x),
        Action::Skip => Ok(skip(x, v)),
        Action::Assign { register, at, end } => assign(sheet, x, v, register, at, end),
        Action::Branch { target, at, end } => branch(sheet, x, v, target, at, end),
        Action::Store { register, variable } => Ok(store(x, v, register, variable)),
        Action::Load { register, variable } => Ok(load(x, v, register, variable)),
        Action::Unlock(l) => Ok(unlock(x, v, l)),
        Action::Lock(l) => Ok(lock(x, v, l)),
    }
}
