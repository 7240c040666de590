// The statement at which a thread stands.
ghost use Rattle.std.specs.Prelude.{◌≡◌, ℕ, suc, ◌+◌, ◌≤◌, ◌<◌, length};
ghost use Rattle.rules.specs.Constants.{most_statements};
ghost use Rattle.rules.specs.Program as P;
ghost use Rattle.rules.specs.Program.{no_statement};
ghost use Rattle.rules.specs.Format.{Bytes, Names};
ghost use Rattle.reader.specs.Facts.{program_in, statement_in, StatementFacts, Targets};
ghost use Rattle.event.specs.Plan.{Ready};
ghost use Rattle.event.specs.Fetch.{names_of, Fetches};

use crate::plan::Plan;
use field::decoding::Statement;
use field::{Action, Time, statement_at};
use reader::{MOST_PLACES, MOST_STATEMENTS};

// A statement, and the place in the sheet where it stands.
#[derive(Clone, Copy)]
pub struct Fetched {
    pub place: usize,
    pub statement: Statement,
}

// Where the number names no statement, there is none to end: it is a halt.
fn none() -> Fetched
    ensures { (s : Bytes) (ns : Names) (at : ℕ) → Fetches s ns at no_statement result }
{
    Fetched {
        place: 0,
        statement: Statement {
            least: Time(0),
            greatest: Time(0),
            action: Action::Halt,
        },
    }
}

fn fetch_at(sheet: &[u8], place: usize) -> Fetched
    requires { place + 8 ≤ length sheet.now }
    ensures { (ns : Names) (at : ℕ) (x : P.Statement) → place ≡ x.place → at < most_statements → StatementFacts ns sheet.now x
        → Targets most_statements x.action → Fetches sheet.now ns at x result }
{
    let statement = statement_at(sheet, place);
    Fetched { place, statement }
}

// Statement `at` of thread t.
pub fn fetch(sheet: &[u8], places: &[u16; MOST_PLACES], plan: Plan, t: usize, at: u8) -> Fetched
    requires { Ready sheet.now plan places.now × (t < length (program_in sheet.now).threads) }
    ensures { Fetches sheet.now (names_of (program_in sheet.now) t) at (statement_in (program_in sheet.now) t at) result }
{
    let k = usize::from(at);
    if k < usize::from(plan.entries[t].statements) {
        fetch_at(sheet, usize::from(places[t * MOST_STATEMENTS + k]))
    } else {
        none()
    }
}

// The number of the next statement.
pub fn next(at: u8) -> u8
    requires { at < most_statements }
    ensures { result ≡ suc at }
{
    at + 1
}
