// The state that an event makes, written straight into its slot: the numbers of the state before it are copied, then those that
// the event changes are replaced. The four functions behind `put_moved` are that and one more write each: five promises, one for each
// kind of event.
ghost use Rattle.std.specs.Prelude.{◌≡◌, ◌<◌, length, set};
ghost use Rattle.rules.specs.Constants.{numbers_per_state, most_registers, most_variables, most_locks};
ghost use Rattle.state.specs.Access.{thread_at, with_var, with_owner};
ghost use Rattle.state.specs.Cells.{decode};
ghost use Rattle.state.specs.Move.{MoveFits, moved_to};

use crate::Clock;
use crate::cells::{
    FIRST_OWNER, FIRST_REGISTER, FIRST_VARIABLE, NUMBERS_OF_SPANS, NUMBERS_PER_STATE,
    NUMBERS_PER_THREAD, put_span, put_spans, put_stand,
};
use interval::Span;

// A thread comes to statement `at`, with its clock there. What MoveFits says of a move is a clause and no ghost field: which move an event
// makes is told by an equation of whole moves, and that would have to carry the proofs.
#[derive(Clone, Copy)]
pub struct Move {
    pub thread: usize,
    pub at: u8,
    pub clock: Clock,
}

// The thread moved, its registers as they were.
pub fn put_moved(slot: &mut [i32], cells: &[i32; NUMBERS_PER_STATE], m: Move)
    requires { (length slot.old ≡ numbers_per_state) × MoveFits m }
    ensures { decode slot.new ≡ moved_to (decode cells.now) m (thread_at (decode cells.now) m.thread).regs }
{
    slot.copy_from_slice(cells);
    put_stand(slot, m.thread * NUMBERS_PER_THREAD, m.at, m.clock);
}

// The thread moved, with register i of it.
pub fn put_register(slot: &mut [i32], cells: &[i32; NUMBERS_PER_STATE], m: Move, i: usize, v: Span)
    requires { (length slot.old ≡ numbers_per_state) × (MoveFits m × (i < most_registers)) }
    ensures { decode slot.new ≡ moved_to (decode cells.now) m (set (thread_at (decode cells.now) m.thread).regs i v) }
{
    put_moved(slot, cells, m);
    put_span(
        slot,
        m.thread * NUMBERS_PER_THREAD + FIRST_REGISTER + 2 * i,
        v,
    );
}

// The thread moved, with all its registers.
pub fn put_registers(slot: &mut [i32], cells: &[i32; NUMBERS_PER_STATE], m: Move, regs: [Span; 8])
    requires { (length slot.old ≡ numbers_per_state) × MoveFits m }
    ensures { decode slot.new ≡ moved_to (decode cells.now) m regs }
{
    put_moved(slot, cells, m);
    let p = m.thread * NUMBERS_PER_THREAD + FIRST_REGISTER;
    put_spans(&mut slot[p..p + NUMBERS_OF_SPANS], regs);
}

// The thread moved, and variable k.
pub fn put_variable(slot: &mut [i32], cells: &[i32; NUMBERS_PER_STATE], m: Move, k: usize, v: Span)
    requires { (length slot.old ≡ numbers_per_state) × (MoveFits m × (k < most_variables)) }
    ensures { decode slot.new ≡ with_var (moved_to (decode cells.now) m (thread_at (decode cells.now) m.thread).regs) k v }
{
    put_moved(slot, cells, m);
    put_span(slot, FIRST_VARIABLE + 2 * k, v);
}

// The thread moved, and the owner of lock l.
pub fn put_owner(slot: &mut [i32], cells: &[i32; NUMBERS_PER_STATE], m: Move, l: usize, o: u8)
    requires { (length slot.old ≡ numbers_per_state) × (MoveFits m × (l < most_locks)) }
    ensures { decode slot.new ≡ with_owner (moved_to (decode cells.now) m (thread_at (decode cells.now) m.thread).regs) l o }
{
    put_moved(slot, cells, m);
    slot[FIRST_OWNER + l] = i32::from(o);
}
