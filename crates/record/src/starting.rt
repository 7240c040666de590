// The starting values of a record: one field each, variables first, then the registers of each thread.
ghost use Rattle.std.specs.Prelude.{◌≡◌, ◌≤◌, [], map, length, IfOk};
ghost use Rattle.rules.specs.Constants.{most_registers};
ghost use Rattle.interval.specs.Shape.{interval_of};
ghost use Rattle.recorded.specs.Follow.{start_value, start_values, start_threads, start_replay};
ghost use Rattle.record.specs.Reached.{reached_of};
ghost use Rattle.record.specs.Start.{value_got, values_got, threads_got, StartsFrom};
ghost use Rattle.record.specs.Sheet.{program_of, sizes_in, IsReady};

use crate::events::HEAD;
use crate::replay::{Replay, RunThread};
use crate::sheet::Sheet;
use expression::int32_at;
use field::{Time, fixed_field_end, need};
use interval::{Span, Val, holds};
use refusal::{Fault, Refusal};
use state::State;

const VALUE: u8 = 32;

// The bytes of a starting value.
const VALUE_SIZE: u16 = 4;

// A thread at its statement 0, before its registers have values.
const AT_START: RunThread = RunThread {
    at: 0,
    clock: Time(0),
    regs: [Val(0); 8],
};

// The starting value in the field at a place, which is to lie on a span; and the place behind the field.
#[tactic(auto, unfolding(crate::proofs::Opened::start_value))]
fn start_value(r: &[u8], at: usize, range: Span) -> Result<(Val, usize), Fault>
    ensures { value_got result ≡ start_value (interval_of range) r.now at }
{
    let behind = fixed_field_end(r, at, VALUE, VALUE_SIZE)?;
    let v = int32_at(r, at + HEAD);
    need(holds(range, v), Refusal::OffRange, at)?;
    Ok((v, behind))
}

// A starting value on each of the spans, and the place behind them.
fn start_values(r: &[u8], from: usize, ranges: &[Span]) -> Result<([Val; 8], usize), Fault>
    requires { length ranges.now ≤ most_registers }
    ensures { values_got (length ranges.now) result ≡ start_values (map interval_of ranges.now) [] r.now from }
{
    let mut values = [Val(0); 8];
    let mut at = from;
    // by k: under `values.iter_mut().zip(ranges)` an invariant cannot name what is written, and `returns` stayed open
    for (k, range) in ranges.iter().enumerate() {
        (values[k], at) = start_value(r, at, *range)?;
    }
    Ok((values, at))
}

// Each thread at its statement 0, with a starting value for each of its registers, whose spans `first` has; and the place behind them.
fn start_threads(
    sheet: &Sheet,
    first: &State,
    r: &[u8],
    from: usize,
) -> Result<([RunThread; 4], usize), Fault>
    requires { IsReady sheet.now × StartsFrom (program_of sheet.now) first.now }
    ensures { threads_got (sizes_in sheet.now).regs result ≡ start_threads (program_of sheet.now).threads [] r.now from }
{
    let mut threads = [AT_START; 4];
    let mut at = from;
    // by t: of a zip of the three arrays, cut and numbered, that item t is entry t and thread t stayed open (`loop-t-preserved`)
    for t in 0..sheet.plan.threads {
        let n = usize::from(sheet.plan.entries[t].registers);
        let ranges = &first.threads[t].regs[..n];
        let (regs, behind) = start_values(r, at, ranges)?;
        threads[t] = RunThread { regs, ..AT_START };
        at = behind;
    }
    Ok((threads, at))
}

// The state in which a replay starts, and the place behind the starting values: no lock is owned, and the tick is 0.
pub(crate) fn start_replay(sheet: &Sheet, first: &State, r: &[u8]) -> Result<(Replay, usize), Fault>
    requires { IsReady sheet.now × StartsFrom (program_of sheet.now) first.now }
    ensures result_value { reached_of (sizes_in sheet.now) result ≡ start_replay (program_of sheet.now) r.now }
    ensures tick_value { IfOk result (λ x. x.0.tick.0 ≡ 0) }
{
    let (vars, at) = start_values(r, 0, &first.vars[..sheet.variables])?;
    let (threads, at) = start_threads(sheet, first, r, at)?;
    let x = Replay {
        threads,
        vars,
        owners: [0; 8],
        tick: Time(0),
    };
    Ok((x, at))
}
