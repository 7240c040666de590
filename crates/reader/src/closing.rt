// Closing a thread, from the places of its statements: the last is halt, and every target stands in the thread.
ghost use Rattle.std.specs.Prelude.{◌≡◌, ◌<◌, length};
ghost use Rattle.reader.specs.Index.{target_at, targets_at, last_at};

use field::{byte_at, need};
use refusal::{Fault, Refusal};

// 01's codes of halt and of if. They are numbers, as `target_at` and `last_at` speak of the byte at a place, whichever it is.
const HALT: usize = 0;

const IF: usize = 3;

// The statement at p is no if, or its target is below n.
#[tactic(auto, unfolding(crate::specs::Index::target_at))]
fn target_fits(s: &[u8], n: usize, p: usize) -> bool
    requires { p < 65536 }
    ensures { result ≡ target_at s.now n p }
{
    byte_at(s, p + 7) != IF || byte_at(s, p + 8) < n
}

// Each target is one of the thread's statements.
#[tactic(auto, using(crate::proofs::closing::Laws::targets_from), unfolding(crate::specs::Index::targets_at))]
pub(crate) fn targets_fit(s: &[u8], places: &[u16]) -> Result<(), Fault>
    ensures { result ≡ targets_at s.now (length places.now) places.now }
{
    for place in places {
        let p = usize::from(*place);
        need(target_fits(s, places.len(), p), Refusal::NoSuchName, p)?;
    }
    Ok(())
}

// The last statement, where there is one, is halt.
#[tactic(auto, using(crate::proofs::closing::Laws::last_is, crate::proofs::closing::Laws::last_none))]
pub(crate) fn last_halts(s: &[u8], places: &[u16]) -> Result<(), Fault>
    ensures { result ≡ last_at s.now places.now }
{
    if let Some(last) = places.last() {
        let p = usize::from(*last);
        need(byte_at(s, p + 7) == HALT, Refusal::NoHalt, p)?;
    }
    Ok(())
}
