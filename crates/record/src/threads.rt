// The threads of a replay state: the statements at which they stand, and what is asked of each.
ghost use Rattle.std.specs.Prelude.{◌≡◌, ◌<◌, not, length};
ghost use Rattle.rules.specs.Base.{all_below};
ghost use Rattle.rules.specs.Run.{live, finished};
ghost use Rattle.field.specs.Decoded.{halts};
ghost use Rattle.reader.specs.Facts.{statement_in};
ghost use Rattle.event.specs.Fetch.{names_of, Fetches};
ghost use Rattle.record.specs.Replay.{thread_at, state_of};
ghost use Rattle.record.specs.Step.{allows, allows_at};
ghost use Rattle.record.specs.Sheet.{program_of, sizes_in, IsReady};

use crate::replay::Replay;
use crate::sheet::Sheet;
use event::fetch::Fetched;
use field::decoding::Statement;
use field::{Time, is_halt};

// The statement at which thread t stands: as the search's `taken` fetches it, there from a slot's numbers, here from a replay state.
pub(crate) fn fetch(sheet: &Sheet, x: &Replay, t: usize) -> Fetched
    requires { IsReady sheet.now × (t < length (program_of sheet.now).threads) }
    ensures { Fetches sheet.now.bytes.now (names_of (program_of sheet.now) t) (thread_at x.now t).at
        (statement_in (program_of sheet.now) t (thread_at x.now t).at) result }
{
    event::fetch::fetch(sheet.bytes, sheet.places, sheet.plan, t, x.threads[t].at)
}

// A thread at this clock, with this statement, allows an event end at tick e.
fn allows(clock: Time, f: Statement, e: Time) -> bool
    ensures { result ≡ allows clock.0 (halts f.action) f.greatest.0 e.0 }
{
    clock.0 <= e.0 && (is_halt(f.action) || e.0 - clock.0 <= f.greatest.0)
}

fn thread_allows(sheet: &Sheet, x: &Replay, u: usize, e: Time) -> bool
    requires { IsReady sheet.now × (u < length (program_of sheet.now).threads) }
    ensures { result ≡ allows_at (program_of sheet.now) (state_of (sizes_in sheet.now) x.now) e.0 u }
{
    allows(x.threads[u].clock, fetch(sheet, x, u).statement, e)
}

// Every thread allows an event end at tick e.
pub(crate) fn all_allow(sheet: &Sheet, x: &Replay, e: Time) -> bool
    requires { IsReady sheet.now }
    ensures { result
        ≡ all_below (length (program_of sheet.now).threads) (allows_at (program_of sheet.now) (state_of (sizes_in sheet.now) x.now) e.0) }
{
    (0..sheet.plan.threads).all(|u| thread_allows(sheet, x, u, e))
}

fn thread_halts(sheet: &Sheet, x: &Replay, u: usize) -> bool
    requires { IsReady sheet.now × (u < length (program_of sheet.now).threads) }
    ensures { result ≡ not (live (program_of sheet.now) (state_of (sizes_in sheet.now) x.now) u) }
{
    is_halt(fetch(sheet, x, u).statement.action)
}

// Every thread stands at halt.
pub(crate) fn all_halt(sheet: &Sheet, x: &Replay) -> bool
    requires { IsReady sheet.now }
    ensures { result ≡ finished (program_of sheet.now) (state_of (sizes_in sheet.now) x.now) }
{
    (0..sheet.plan.threads).all(|u| thread_halts(sheet, x, u))
}
