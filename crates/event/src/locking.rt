// The event of a thread at a lock or an unlock. A lock's owner is 0 for none, t + 1 for thread t, as a slot has it: a number and no
// `Option`.
ghost use Rattle.std.specs.Prelude.{◌≡◌, suc, ◌<◌, get_or};
ghost use Rattle.rules.specs.Constants.{most_threads, most_statements, most_locks};
ghost use Rattle.rules.specs.Program as P;
ghost use Rattle.rules.specs.Lock.{may_take, after_unlock};
ghost use Rattle.state.specs.Shape.{Sizes, owner_of};
ghost use Rattle.state.specs.Cells.{decode};
ghost use Rattle.event.specs.Act.{Ticks, mover, effect_of};
ghost use Rattle.event.specs.Stack.{SameStack, Leaves};

use crate::act::Event;
use crate::stack::Stack;
use state::{NUMBERS_PER_STATE, at_of, owner_of, put_moved, put_owner};

// How a lock's cell names thread t. By `as`: std has no `From` for this, and `try_from` would give an `Err` that cannot come.
pub fn owner(t: usize) -> u8
    requires { t < most_threads }
    ensures { result ≡ suc t }
{
    (t + 1) as u8
}

// A lock is free, or the thread owns it already.
pub fn may_take(t: usize, o: u8) -> bool
    requires { t < most_threads }
    ensures { result ≡ may_take t (owner_of o) }
{
    o == 0 || o == owner(t)
}

pub fn after_unlock(t: usize, o: u8) -> u8
    requires { t < most_threads }
    ensures { owner_of result ≡ after_unlock t (owner_of o) }
{
    if o == owner(t) { 0 } else { o }
}

pub(crate) fn unlock(cells: &[i32; NUMBERS_PER_STATE], v: Event, l: usize, stack: &mut Stack)
    requires ticks { Ticks v }
    requires live { (mover (decode cells.now) v).at < most_statements }
    requires lock { l < most_locks }
    ensures same { SameStack stack.old stack.new }
    ensures leaves { (z : Sizes) → l < z.locks
        → Leaves z stack.old stack.new (Ok tt)
        (effect_of z (decode cells.now) v (get_or z.regs v.thread 0) (P.unlock l)) }
{
    let o = after_unlock(v.thread, owner_of(cells, l));
    let m = v.onward(cells);
    stack.push(|slot| put_owner(slot, cells, m, l, o));
}

pub(crate) fn lock(cells: &[i32; NUMBERS_PER_STATE], v: Event, l: usize, stack: &mut Stack)
    requires ticks { Ticks v }
    requires live { (mover (decode cells.now) v).at < most_statements }
    requires lock { l < most_locks }
    ensures same { SameStack stack.old stack.new }
    ensures leaves { (z : Sizes) → l < z.locks
        → Leaves z stack.old stack.new (Ok tt)
        (effect_of z (decode cells.now) v (get_or z.regs v.thread 0) (P.lock l)) }
{
    if may_take(v.thread, owner_of(cells, l)) {
        let o = owner(v.thread);
        let m = v.onward(cells);
        stack.push(|slot| put_owner(slot, cells, m, l, o));
    } else {
        let m = v.move_to(at_of(cells, v.thread));
        stack.push(|slot| put_moved(slot, cells, m));
    }
}
