// Ranges: the starting values of variables (tag 2) and registers (tag 5).
#![tactic(auto, unfolding(crate::proofs::Opened::ranges))]

ghost use Rattle.std.specs.Prelude.{◌≡◌, []};
ghost use Rattle.rules.specs.Format.{due, read_range, variable_here, read_variables, read_registers};
ghost use Rattle.field.specs.Outcome.{end_of, next_of, count_of};

use crate::fields::{due_at, fixed_end};
use crate::heads::field_at;
use crate::outcome::{Counted, need};
use crate::tags::{REGISTER, THREAD, VARIABLE};
use expression::int32_at;
use refusal::{Fault, Refusal};

// Behind the header and the locks stands the first variable.
pub const VARIABLES_AT: usize = 23;

// The bytes of a range with its tag and its length.
pub const RANGE_SIZE: usize = 11;

const MOST_VARIABLES: usize = 8;

fn range_end(s: &[u8], at: usize) -> Result<usize, Fault>
    ensures { result ≡ end_of (read_range s.now at) }
{
    let end = fixed_end(s, at, 8)?;
    let low = int32_at(s, at + 3);
    let high = int32_at(s, at + 7);
    need(low <= high, Refusal::OffRange, at)?;
    Ok(end)
}

fn register_end(s: &[u8], at: usize) -> Result<usize, Fault>
    ensures { result ≡ end_of (due 5 s.now at (read_range s.now at)) }
{
    due_at(s, at, REGISTER)?;
    range_end(s, at)
}

// Whether one more variable stands there, or else the first thread.
fn variable_here(s: &[u8], at: usize) -> Result<bool, Fault>
    ensures { result ≡ next_of at (variable_here s.now at) }
{
    let f = field_at(s, at)?;
    match f.tag {
        VARIABLE => Ok(true),
        THREAD => Ok(false),
        _ => Err(Fault {
            refusal: Refusal::OutOfTurn,
            place: at,
        }),
    }
}

pub fn read_variables(s: &[u8], at: usize) -> Result<Counted, Fault>
    ensures { result ≡ count_of (read_variables s.now at) }
{
    let mut count = 0;
    let mut end = at;
    // A `while`: behind a `for` over the most that may stand there, the place would be tested once more to tell too many.
    while variable_here(s, end)? {
        need(count < MOST_VARIABLES, Refusal::TooMany, end)?;
        end = range_end(s, end)?;
        count += 1;
    }
    Ok(Counted { count, end })
}

// The ranges of n registers.
pub fn registers_end(s: &[u8], n: usize, at: usize) -> Result<usize, Fault>
    ensures { result ≡ end_of (read_registers n [] s.now at) }
{
    let mut end = at;
    for _ in 0..n {
        end = register_end(s, end)?;
    }
    Ok(end)
}
