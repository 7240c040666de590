// Statements: a statement's field, and what stands where one may.
// Every function is given the whole sheet s and the place of a statement's field in it.
#![tactic(auto, unfolding(crate::proofs::Opened::statements))]

ghost use Rattle.std.specs.Prelude.{◌≡◌, ◌+◌, ◌≤◌, length, OnOk};
ghost use Rattle.rules.specs.Format.{num16, times_fit, read_contents, read_statement, statement_here};
ghost use Rattle.field.specs.Outcome.{end_of, next_of, names_of};

use crate::codes::Code;
use crate::fields::{length_at, whole_field_at};
use crate::heads::field_at;
use crate::operands::{Names, action_end};
use crate::outcome::need;
use crate::tags::{STATEMENT, THREAD};
use crate::ticks::{Time, time16_at};
use refusal::{Fault, Refusal};

// ---- a statement's field

// Whether a statement of a code may have these times. The code is the sheet's number and no `Code`: 0 is halt's, and `retime` gives
// the number where it stands.
pub fn times_fit(c: usize, least: Time, greatest: Time) -> bool
    ensures { result ≡ times_fit c least.0 greatest.0 }
{
    if c == 0 {
        least.0 == 0 && greatest.0 == 0
    } else {
        1 <= least.0 && least <= greatest
    }
}

// The contents of a field whose body lies in the sheet.
fn contents_end(s: &[u8], names: Names, at: usize) -> Result<usize, Fault>
    requires { at + 3 + num16 s.now (at + 1) ≤ length s.now }
    ensures end { result ≡ end_of (read_contents (names_of names) s.now at) }
    ensures inside { OnOk result (at + 8 ≤ length s.now) }
{
    let n = length_at(s, at);
    need(5 <= n, Refusal::BadLength, at)?;
    let c = s[at + 7];
    let code = Code::try_from(c).map_err(|refusal| Fault { refusal, place: at })?;
    need(code.length_fits(n), Refusal::BadLength, at)?;
    let least = time16_at(s, at + 3);
    let greatest = time16_at(s, at + 5);
    need(
        times_fit(usize::from(c), least, greatest),
        Refusal::OffRange,
        at,
    )?;
    action_end(s, names, at, code, n)
}

// A statement's field: the body first, then its contents.
pub fn statement_end(s: &[u8], names: Names, at: usize) -> Result<usize, Fault>
    ensures end { result ≡ end_of (read_statement (names_of names) s.now at) }
    ensures inside { OnOk result (at + 8 ≤ length s.now) }
{
    need(whole_field_at(s, at), Refusal::Short, at)?;
    contents_end(s, names, at)
}

// ---- what stands where a statement may

// Whether one more stands there, or else the end of the thread, which is not before its first statement. n is how many were read.
pub fn statement_here(s: &[u8], n: usize, at: usize) -> Result<bool, Fault>
    ensures { result ≡ next_of at (statement_here n s.now at) }
{
    if 0 < n && at == s.len() {
        return Ok(false);
    }
    let f = field_at(s, at)?;
    match f.tag {
        STATEMENT => Ok(true),
        THREAD if 0 < n => Ok(false),
        _ => Err(Fault {
            refusal: Refusal::OutOfTurn,
            place: at,
        }),
    }
}
