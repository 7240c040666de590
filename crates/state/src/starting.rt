// The state in which every search starts: each thread at its statement 0 with its clock at 0, values in the ranges that the
// sheet gives, no lock owned. Ranges are read where they stand in the sheet, by the index.
ghost use Rattle.std.specs.Prelude.{◌≡◌, ◌≤◌, ◌+◌, ◌*◌, length};
ghost use Rattle.rules.specs.Constants.{most_registers};
ghost use Rattle.rules.specs.Format.{read_sheet};
ghost use Rattle.interval.specs.Shape.{interval_of};
ghost use Rattle.expression.specs.Evaluation.{regs_of};
ghost use Rattle.reader.specs.Index.{index_of};
ghost use Rattle.reader.specs.Facts.{range_at, ranges};
ghost use Rattle.state.specs.Cells.{Timed};
ghost use Rattle.state.specs.Start.{EntryFits, ThreadStarts, StartsAs};

use crate::{Clock, State, Thread};
use expression::int32_at;
use field::{RANGE_SIZE, Time, VARIABLES_AT};
use interval::{Span, Val};
use reader::threads::ThreadEntry;
use reader::{Index, OPENING_SIZE};

// The span of the field of tag 2 or 5 at p.
fn range_at(s: &[u8], p: usize) -> Span
    requires { p + 11 ≤ length s.now }
    ensures { interval_of result ≡ range_at s.now p }
{
    Span {
        low: int32_at(s, p + 3),
        high: int32_at(s, p + 7),
    }
}

// The spans of n such fields, one behind the other, and spans of 0 behind them.
fn ranges_at(s: &[u8], p: usize, n: usize) -> [Span; 8]
    requires { (p + 11 * n ≤ length s.now) × (n ≤ most_registers) }
    ensures { regs_of n result ≡ ranges s.now p n }
{
    let zero = Span {
        low: Val(0),
        high: Val(0),
    };
    let mut spans = [zero; 8];
    // By index: tried over `iter_mut().enumerate().take(n)`, `returns` stays open, as in `put_spans`.
    for i in 0..n {
        spans[i] = range_at(s, p + RANGE_SIZE * i);
    }
    spans
}

// The thread of an entry; a thread that the sheet does not have is one with no registers.
fn start_thread(s: &[u8], entry: ThreadEntry) -> Thread
    requires { EntryFits s.now entry }
    ensures { ThreadStarts s.now entry result × Timed result }
{
    let registers = usize::from(entry.place) + OPENING_SIZE;
    Thread {
        at: 0,
        clock: Clock {
            low: Time(0),
            high: Time(0),
        },
        regs: ranges_at(s, registers, usize::from(entry.registers)),
    }
}

// The starting state of a sheet that reads, by its index.
// That the index is the sheet's is a clause and no ghost field of the two: a struct of both would be taken apart at once.
pub fn start(sheet: &[u8], index: Index) -> State
    requires { index_of (read_sheet sheet.now) ≡ Ok index }
    ensures { StartsAs sheet.now result }
{
    State {
        threads: index.entries.map(|entry| start_thread(sheet, entry)),
        vars: ranges_at(sheet, VARIABLES_AT, index.variables),
        owners: [0; 8],
    }
}
