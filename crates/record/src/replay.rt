// The replay state, by value: where each thread stands, its clock and its registers, the variables, who owns each lock, and the
// tick of the last event. There is always room for 4 threads, 8 registers each, 8 variables and 8 locks; the sheet says how many
// of them count: fixed memory, no heap.
use field::Time;
use interval::Val;

// At is the number of the statement where the thread stands.
#[derive(Clone, Copy)]
pub(crate) struct RunThread {
    pub at: u8,
    pub clock: Time,
    pub regs: [Val; 8],
}

// The owner of a lock is 0 for none, t + 1 for thread t: a number, as `event::locking`, which decides for both, and the search's slots
// have it.
#[derive(Clone, Copy)]
pub(crate) struct Replay {
    pub threads: [RunThread; 4],
    pub vars: [Val; 8],
    pub owners: [u8; 8],
    pub tick: Time,
}
