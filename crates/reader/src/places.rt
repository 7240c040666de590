// The statements of a thread, and the table of their places.
// The cast: std has no `From` to the narrower type, and `try_from` would give an Err that cannot come.
ghost use Rattle.std.specs.Prelude.{◌≤◌, length};
ghost use Rattle.rules.specs.Constants.{most_statements};
ghost use Rattle.rules.specs.Format.{read_statements};
ghost use Rattle.field.specs.Outcome.{names_of};
ghost use Rattle.reader.specs.Index.{greatest_place, StatementsRead};

use field::{Counted, Names, need, statement_end, statement_here};
use refusal::{Fault, Refusal};

pub const MOST_STATEMENTS: usize = 64;

// A thread's statements: their places go to the front of the table.
pub(crate) fn read_statements(
    s: &[u8],
    names: Names,
    at: usize,
    places: &mut [u16],
) -> Result<Counted, Fault>
    requires { (most_statements ≤ length places.old) × (length s.now ≤ greatest_place) }
    ensures { StatementsRead (read_statements (names_of names) s.now at) places.old places.new result }
{
    let mut count = 0;
    let mut end = at;
    // A `while`: behind a `for` over the most that may stand there, the place would be tested once more to tell too many.
    while statement_here(s, count, end)? {
        need(count < MOST_STATEMENTS, Refusal::TooMany, end)?;
        let place = end;
        end = statement_end(s, names, place)?;
        places[count] = place as u16;
        count += 1;
    }
    Ok(Counted { count, end })
}
