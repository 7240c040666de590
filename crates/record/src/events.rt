// The events of a record, one field behind the other.
ghost use Rattle.std.specs.Prelude.{◌≡◌, ◌*◌, ◌≤◌, length};
ghost use Rattle.recorded.specs.Follow.{longest_record, follow_event, follow_from};
ghost use Rattle.record.specs.Replay.{replay_of};
ghost use Rattle.record.specs.Reached.{placed, reached_of};
ghost use Rattle.record.specs.Sheet.{program_of, sizes_in, IsReady};
ghost use Rattle.record.specs.Step.{Asks};

use crate::lent::take_event;
use crate::replay::Replay;
use crate::sheet::Sheet;
use expression::num16_at;
use field::fixed_field_end;
use refusal::Fault;

const EVENT: u8 = 33;

// The bytes of an event's body: thread and clock.
const EVENT_SIZE: u16 = 3;

// The bytes of a field's head: tag and length.
pub(crate) const HEAD: usize = 3;

// An event's clock stands behind the head and the thread's byte.
const CLOCK_AT: usize = 4;

// The event in the field at a place takes effect on the state; the place behind the field. A refused event leaves the state as it was.
#[tactic(auto, unfolding(crate::proofs::Opened::follow_event))]
fn follow_event(sheet: &Sheet, x: &mut Replay, r: &[u8], at: usize) -> Result<usize, Fault>
    requires { Asks sheet.now x.old }
    ensures { placed (replay_of (sizes_in sheet.now) x.new) result
        ≡ follow_event (program_of sheet.now) r.now at (replay_of (sizes_in sheet.now) x.old) }
{
    let behind = fixed_field_end(r, at, EVENT, EVENT_SIZE)?;
    let t = usize::from(r[at + HEAD]);
    let clock = num16_at(r, at + CLOCK_AT);
    take_event(x, sheet, t, clock).map_err(|refusal| Fault { refusal, place: at })?;
    Ok(behind)
}

// The events from a place to the record's end: the state that they leave, and the place behind them.
pub(crate) fn follow_events(
    sheet: &Sheet,
    start: Replay,
    r: &[u8],
    from: usize,
) -> Result<(Replay, usize), Fault>
    requires { IsReady sheet.now × ((length r.now ≤ longest_record) × (start.tick.0 ≤ from * 65535)) }
    ensures { reached_of (sizes_in sheet.now) result
        ≡ follow_from (program_of sheet.now) r.now from (replay_of (sizes_in sheet.now) start) }
{
    let mut x = start;
    let mut at = from;
    // a `while`: where the next event stands is read from this one
    while at < r.len() {
        at = follow_event(sheet, &mut x, r, at)?;
    }
    Ok((x, at))
}
