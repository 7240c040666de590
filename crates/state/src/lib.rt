// A state of the search, by value: where each thread stands, its clock and its registers, the variables, and who owns each
// lock. There is always room for 4 threads, 8 registers each, 8 variables and 8 locks, since there is no heap; the sheet says how many of
// them count.
#![tactic(auto)]

use field::Time;
use interval::Span;

mod cells; // the numbers of a state, and the stack of states in the work buffer
mod parts; // the parts of a state, read from its numbers
pub mod moves; // the state that an event makes, in its slot
mod starting; // the state in which a search starts

pub use cells::{NUMBERS_PER_STATE, clear, store};
pub use moves::{Move, put_moved, put_owner, put_register, put_registers, put_variable};
pub use parts::{at_of, clock_of, owner_of, register_of, registers_of, take_slot, variable_of};
pub use starting::start;

// The earliest and the latest tick that a thread's clock may show: a type of its own, so that it never stands for a window that was found
// or that a label allows.
#[derive(Clone, Copy)]
pub struct Clock {
    pub low: Time,
    pub high: Time,
}

// At is the number of the statement where the thread stands.
#[derive(Clone, Copy)]
pub struct Thread {
    pub at: u8,
    pub clock: Clock,
    pub regs: [Span; 8],
}

// The owner of a lock is 0 for none, t + 1 for thread t: a number and no `Option`, since a slot holds numbers.
#[derive(Clone, Copy)]
pub struct State {
    pub threads: [Thread; 4],
    pub vars: [Span; 8],
    pub owners: [u8; 8],
}
