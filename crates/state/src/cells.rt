// The numbers of a state in the work buffer: a slot holds one state, and the slots below a height are a stack. In a slot
// stand four threads of 19 numbers (statement, clock low and high, eight registers low and high), then eight variables low
// and high, then eight owners.
ghost use Rattle.std.specs.Prelude.{◌≡◌, ◌<◌, ◌≤◌, ◌+◌, ◌*◌, pos, length, set, replicate};
ghost use Rattle.rules.specs.Constants.{half32, numbers_per_state};
ghost use Rattle.state.specs.Cells.{spans_cells, owners_cells, thread_cells, encode, Timed, AllTimed, stored};

use crate::{Clock, State, Thread};
use interval::Span;

// With no heap a slot is of this size, however much of it a sheet uses.
pub const NUMBERS_PER_STATE: usize = 100;

pub(crate) const NUMBERS_PER_THREAD: usize = 19;

// Where a thread's registers stand among its numbers.
pub(crate) const FIRST_REGISTER: usize = 3;

// The numbers of eight spans: a thread's registers, or the variables.
pub(crate) const NUMBERS_OF_SPANS: usize = 16;

pub(crate) const FIRST_VARIABLE: usize = 76;

pub(crate) const FIRST_OWNER: usize = 92;

// ---- a state to its numbers. But for an owner, a copied slot and a cleared buffer, only the next two functions write a number, each
// of one kind, so no tick is written where a value is due

// A thread's statement and clock, the first three of its numbers.
pub(crate) fn put_stand(cells: &mut [i32], p: usize, at: u8, clock: Clock)
    requires { (p + 3 ≤ length cells.old) × (clock.low.0 < half32) × (clock.high.0 < half32) }
    ensures { cells.new ≡ set (set (set cells.old p (pos at)) (p + 1) (pos clock.low.0)) (p + 2) (pos clock.high.0) }
{
    cells[p] = i32::from(at);
    cells[p + 1] = clock.low.0.cast_signed();
    cells[p + 2] = clock.high.0.cast_signed();
}

pub(crate) fn put_span(cells: &mut [i32], at: usize, v: Span)
    requires { at + 2 ≤ length cells.old }
    ensures { cells.new ≡ set (set cells.old at v.low.0) (at + 1) v.high.0 }
{
    cells[at] = v.low.0;
    cells[at + 1] = v.high.0;
}

// This loop and the next two go by index: tried over `iter_mut` or `chunks_exact_mut` under `zip`, `returns` stays open, since of what is
// written through such an iterator's items a proof knows no more than the length.
pub(crate) fn put_spans(cells: &mut [i32], v: [Span; 8])
    requires { length cells.old ≡ 16 }
    ensures { cells.new ≡ spans_cells v }
{
    for (i, x) in v.iter().enumerate() {
        put_span(cells, 2 * i, *x);
    }
}

fn put_owners(cells: &mut [i32], v: [u8; 8])
    requires { length cells.old ≡ 8 }
    ensures { cells.new ≡ owners_cells v }
{
    for (i, o) in v.iter().enumerate() {
        cells[i] = i32::from(*o);
    }
}

fn put_thread(cells: &mut [i32], th: Thread)
    requires { (length cells.old ≡ 19) × Timed th }
    ensures { cells.new ≡ thread_cells th }
{
    put_stand(cells, 0, th.at, th.clock);
    put_spans(&mut cells[FIRST_REGISTER..NUMBERS_PER_THREAD], th.regs);
}

fn put_state(cells: &mut [i32], s: State)
    requires { (length cells.old ≡ numbers_per_state) × AllTimed s }
    ensures { cells.new ≡ encode s }
{
    for (t, th) in s.threads.iter().enumerate() {
        let p = t * NUMBERS_PER_THREAD;
        put_thread(&mut cells[p..p + NUMBERS_PER_THREAD], *th);
    }
    put_spans(&mut cells[FIRST_VARIABLE..FIRST_OWNER], s.vars);
    put_owners(&mut cells[FIRST_OWNER..NUMBERS_PER_STATE], s.owners);
}

// The state goes to a slot; the other numbers stay.
pub fn store(work: &mut [i32], slot: usize, s: State)
    requires { (slot * numbers_per_state + numbers_per_state ≤ length work.old) × AllTimed s }
    ensures { work.new ≡ stored work.old slot s }
{
    let at = slot * NUMBERS_PER_STATE;
    put_state(&mut work[at..at + NUMBERS_PER_STATE], s);
}

// ---- the buffer as it is left behind

// Every number becomes 0, those past the last whole slot too: a name for the rule, whose edits buffer_left_as_it_was and last_cell_left
// stand on this one line.
pub fn clear(work: &mut [i32])
    ensures { work.new ≡ replicate (length work.old) (pos 0) }
{
    work.fill(0);
}
