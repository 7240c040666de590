// A statement with its times: its operands are written first, and its tag, length, times and code before them.
//
// The text and a place in it, and the output and a place in it, stay apart, since each call has other places: a struct would be made anew
// at each. `as` where std has no `From` for it, and `try_from` would give an `Err` that cannot come.
ghost use Rattle.std.specs.Prelude.{◌≡◌, ◌≤◌, ◌<◌, length, drop};
ghost use Rattle.text.specs.Words.{then_read, line_end};
ghost use Rattle.text.specs.Lines.{timed};
ghost use Rattle.scan.specs.Writing.{OnwardBuilt};
ghost use Rattle.lines.specs.Writing.{put_timed, Lines};

use crate::actions::action_at;
use crate::fields::put_front;
use crate::line::Due;
use crate::ranges::{Pair, range_at};
use scan::{Built, line_end_at, past, spaces_end};

// Its tag, length, times and code, before its operands, which end at this place: where its times fit and all of it has room.
fn put_timed(out: &mut [u8], at: usize, end: usize, times: Pair, code: u8)
    requires { (at ≤ 65536) × (length out.old < 65536) }
    ensures { out.new ≡ put_timed out.old at end times code }
{
    if end <= out.len() && at + 8 <= end && times.is_small() {
        put_front(out, at, (end - at - 3) as u64, times.low, times.high, code);
    }
}

// `2..3 skip`
pub(crate) fn timed_at(s: &[u8], q: usize, out: &mut [u8], at: usize) -> Result<Built<Due>, usize>
    requires { (q ≤ length s.now) × (at ≤ 65536) × (length out.old < 65536) }
    ensures lines { Lines s.now out.old at out.new (then_read (timed (drop q s.now)) line_end) result }
    ensures onward_field { OnwardBuilt s.now q at result }
{
    let times = range_at(s, q, false)?;
    let word = spaces_end(s, times.place);
    let x = action_at(s, word, out, past(at, 8))?;
    let place = line_end_at(s, x.place)?;
    put_timed(out, at, x.end, times, x.kind);
    Ok(Built {
        kind: Due::Statement,
        place,
        end: x.end,
        fits: times.is_small() && x.fits,
    })
}
