// The parts of the state that a slot's numbers hold. Every number reads as a part of some state: one that is no byte as the nearest
// byte, and a tick below 0 as 0.
ghost use Rattle.std.specs.Prelude.{◌≡◌, ◌<◌, ◌≤◌, ◌+◌, ◌*◌, length};
ghost use Rattle.rules.specs.Constants.{half32, numbers_per_state, most_threads, most_registers, most_variables, most_locks};
ghost use Rattle.state.specs.Access.{thread_at, var_at, owner_at, reg_at};
ghost use Rattle.state.specs.Cells.{slot_of, byte_of, time_of, span_from, decode, AllTimed};

use crate::Clock;
use crate::cells::{
    FIRST_OWNER, FIRST_REGISTER, FIRST_VARIABLE, NUMBERS_PER_STATE, NUMBERS_PER_THREAD,
};
use field::Time;
use interval::{Span, Val};
use std::array;

// The numbers of a slot.
pub fn take_slot(work: &[i32], slot: usize) -> [i32; NUMBERS_PER_STATE]
    requires { slot * numbers_per_state + numbers_per_state ≤ length work.now }
    ensures { (decode result ≡ decode (slot_of work.now slot)) × AllTimed (decode result) }
{
    let from = slot * NUMBERS_PER_STATE;
    work[from..from + NUMBERS_PER_STATE].try_into().unwrap()
}

fn cell_byte(x: i32) -> u8
    ensures { result ≡ byte_of x }
{
    // By `as`: std has no `From` for this, and `try_from` would give an `Err` that cannot come.
    x.clamp(0, 255) as u8
}

fn cell_time(x: i32) -> Time
    ensures { (result.0 ≡ time_of x) × (result.0 < half32) }
{
    Time(x.max(0).cast_unsigned())
}

// Where thread t stands.
pub fn at_of(cells: &[i32; NUMBERS_PER_STATE], t: usize) -> u8
    requires { t < most_threads }
    ensures { result ≡ (thread_at (decode cells.now) t).at }
{
    cell_byte(cells[t * NUMBERS_PER_THREAD])
}

pub fn clock_of(cells: &[i32; NUMBERS_PER_STATE], t: usize) -> Clock
    requires { t < most_threads }
    ensures { (result ≡ (thread_at (decode cells.now) t).clock) × ((result.low.0 < half32) × (result.high.0 < half32)) }
{
    let p = t * NUMBERS_PER_THREAD;
    Clock {
        low: cell_time(cells[p + 1]),
        high: cell_time(cells[p + 2]),
    }
}

fn span_of(cells: &[i32; NUMBERS_PER_STATE], at: usize) -> Span
    requires { at + 2 ≤ numbers_per_state }
    ensures { result ≡ span_from cells.now at }
{
    Span {
        low: Val(cells[at]),
        high: Val(cells[at + 1]),
    }
}

pub fn registers_of(cells: &[i32; NUMBERS_PER_STATE], t: usize) -> [Span; 8]
    requires { t < most_threads }
    ensures { result ≡ (thread_at (decode cells.now) t).regs }
{
    let p = t * NUMBERS_PER_THREAD + FIRST_REGISTER;
    array::from_fn(|i| span_of(cells, p + 2 * i))
}

pub fn register_of(cells: &[i32; NUMBERS_PER_STATE], t: usize, i: usize) -> Span
    requires { (t < most_threads) × (i < most_registers) }
    ensures { result ≡ reg_at (thread_at (decode cells.now) t) i }
{
    span_of(cells, t * NUMBERS_PER_THREAD + FIRST_REGISTER + 2 * i)
}

pub fn variable_of(cells: &[i32; NUMBERS_PER_STATE], k: usize) -> Span
    requires { k < most_variables }
    ensures { result ≡ var_at (decode cells.now) k }
{
    span_of(cells, FIRST_VARIABLE + 2 * k)
}

pub fn owner_of(cells: &[i32; NUMBERS_PER_STATE], l: usize) -> u8
    requires { l < most_locks }
    ensures { result ≡ owner_at (decode cells.now) l }
{
    cell_byte(cells[FIRST_OWNER + l])
}
