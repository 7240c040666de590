// The event of one thread: the states that follow go on the stack, the first made uppermost.
ghost use Rattle.std.specs.Prelude.{◌≡◌, [], ◌∷◌, suc, ◌≤◌, ◌<◌, length, get_or, set};
ghost use Rattle.rules.specs.Constants.{deepest, most_threads, most_statements, most_registers, most_variables};
ghost use Rattle.rules.specs.Program as P;
ghost use Rattle.rules.specs.Program.{Statement};
ghost use Rattle.rules.specs.Format.{got, read_arith};
ghost use Rattle.interval.specs.Shape.{interval_of};
ghost use Rattle.expression.specs.Evaluation.{regs_of};
ghost use Rattle.state.specs.Shape.{Sizes, sizes_of};
ghost use Rattle.state.specs.Cells.{decode};
ghost use Rattle.reader.specs.Facts.{program_in};
ghost use Rattle.event.specs.Fetch.{OfProgram};
ghost use Rattle.event.specs.Act.{Ticks, move_to, moved_by, mover, effect_of, FetchedBy};
ghost use Rattle.event.specs.Stack.{SameStack, Grows, Leaves};

use crate::branching::branch;
use crate::fetch::{Fetched, next};
use crate::locking::{lock, unlock};
use crate::stack::Stack;
use expression::assigned_value;
use field::{Action, Time};
use interval::Span;
use refusal::Refusal;
use state::{
    Clock, Move, NUMBERS_PER_STATE, at_of, put_moved, put_register, put_variable, register_of,
    registers_of, variable_of,
};

// An event of thread t, which has n registers, between two ticks. What Ticks says of it is a clause and no ghost field: events and the
// moves that they make are told by equations of whole values, and those would have to carry the proofs.
#[derive(Clone, Copy)]
pub struct Event {
    pub thread: usize,
    pub registers: usize,
    pub from: Time,
    pub to: Time,
}

impl Event {
    // The event's thread comes to a statement.
    pub(crate) fn move_to(self, at: u8) -> Move
        ensures { result ≡ move_to self at }
    {
        Move {
            thread: self.thread,
            at,
            clock: Clock {
                low: self.from,
                high: self.to,
            },
        }
    }

    // It comes to the statement behind the one where it stands.
    pub(crate) fn onward(self, cells: &[i32; NUMBERS_PER_STATE]) -> Move
        requires thread { self.thread < most_threads }
        requires live { (mover (decode cells.now) self).at < most_statements }
        ensures { result ≡ move_to self (suc (mover (decode cells.now) self).at) }
    {
        self.move_to(next(at_of(cells, self.thread)))
    }
}

// In the clauses below, `live` says that the thread stands at a statement: that is of the state's numbers and the event together, and so
// no fact of either's type.

fn skip(cells: &[i32; NUMBERS_PER_STATE], v: Event, stack: &mut Stack)
    requires ticks { Ticks v }
    requires live { (mover (decode cells.now) v).at < most_statements }
    ensures same { SameStack stack.old stack.new }
    ensures grows { (z : Sizes) → Grows z stack.old stack.new
        (moved_by z (decode cells.now) v (suc (mover (decode cells.now) v).at)
        (regs_of (get_or z.regs v.thread 0) (mover (decode cells.now) v).regs) ∷ []) }
{
    let m = v.onward(cells);
    stack.push(|slot| put_moved(slot, cells, m));
}

fn write_register(cells: &[i32; NUMBERS_PER_STATE], v: Event, r: usize, i: Span, stack: &mut Stack)
    requires ticks { Ticks v }
    requires live { (mover (decode cells.now) v).at < most_statements }
    requires register { r < most_registers }
    ensures same { SameStack stack.old stack.new }
    ensures grows { (z : Sizes) → Grows z stack.old stack.new
        (moved_by z (decode cells.now) v (suc (mover (decode cells.now) v).at)
        (set (regs_of (get_or z.regs v.thread 0) (mover (decode cells.now) v).regs) r (interval_of i)) ∷ []) }
{
    let m = v.onward(cells);
    stack.push(|slot| put_register(slot, cells, m, r, i));
}

fn assign(
    sheet: &[u8],
    cells: &[i32; NUMBERS_PER_STATE],
    v: Event,
    r: usize,
    at: usize,
    end: usize,
    stack: &mut Stack,
) -> Result<(), Refusal>
    requires ticks { Ticks v }
    requires live { (mover (decode cells.now) v).at < most_statements }
    requires register { r < most_registers }
    requires few { v.registers ≤ most_registers }
    requires inside { end ≤ length sheet.now }
    ensures same { SameStack stack.old stack.new }
    ensures leaves { (z : Sizes) (a : P.Arith) → get_or z.regs v.thread 0 ≡ v.registers
        → read_arith deepest sheet.now end v.registers at ≡ got a end
        → Leaves z stack.old stack.new result
        (effect_of z (decode cells.now) v v.registers (P.assign r a)) }
{
    let regs = registers_of(cells, v.thread);
    let value = assigned_value(sheet, at, end, v.registers, regs)?;
    write_register(cells, v, r, value, stack);
    Ok(())
}

fn store(cells: &[i32; NUMBERS_PER_STATE], v: Event, r: usize, k: usize, stack: &mut Stack)
    requires ticks { Ticks v }
    requires live { (mover (decode cells.now) v).at < most_statements }
    requires register { r < most_registers }
    requires variable { k < most_variables }
    ensures same { SameStack stack.old stack.new }
    ensures leaves { (z : Sizes) → r < get_or z.regs v.thread 0
        → Leaves z stack.old stack.new (Ok tt)
        (effect_of z (decode cells.now) v (get_or z.regs v.thread 0) (P.store r k)) }
{
    let i = register_of(cells, v.thread, r);
    let m = v.onward(cells);
    stack.push(|slot| put_variable(slot, cells, m, k, i));
}

fn load(cells: &[i32; NUMBERS_PER_STATE], v: Event, r: usize, k: usize, stack: &mut Stack)
    requires ticks { Ticks v }
    requires live { (mover (decode cells.now) v).at < most_statements }
    requires register { r < most_registers }
    requires variable { k < most_variables }
    ensures same { SameStack stack.old stack.new }
    ensures leaves { (z : Sizes) → k < z.vars
        → Leaves z stack.old stack.new (Ok tt)
        (effect_of z (decode cells.now) v (get_or z.regs v.thread 0) (P.load r k)) }
{
    write_register(cells, v, r, variable_of(cells, k), stack);
}

// The event, on the stack.
pub fn act(
    sheet: &[u8],
    cells: &[i32; NUMBERS_PER_STATE],
    v: Event,
    f: Fetched,
    stack: &mut Stack,
) -> Result<(), Refusal>
    requires ticks { Ticks v }
    requires program { OfProgram (program_in sheet.now) v.thread v.registers }
    requires fetched { (x : Statement) × FetchedBy sheet.now (decode cells.now) v x f }
    ensures same { SameStack stack.old stack.new }
    ensures leaves { (x : Statement) → FetchedBy sheet.now (decode cells.now) v x f
        → Leaves (sizes_of (program_in sheet.now)) stack.old stack.new result
        (effect_of (sizes_of (program_in sheet.now)) (decode cells.now) v v.registers x.action) }
{
    match f.statement.action {
        Action::Halt => {}
        Action::Skip => skip(cells, v, stack),
        Action::Assign { register, at, end } => {
            assign(sheet, cells, v, register, at, end, stack)?
        }
        Action::Branch { target, at, end } => branch(sheet, cells, v, target, at, end, stack)?,
        Action::Store { register, variable } => store(cells, v, register, variable, stack),
        Action::Load { register, variable } => load(cells, v, register, variable, stack),
        Action::Unlock(l) => unlock(cells, v, l, stack),
        Action::Lock(l) => lock(cells, v, l, stack),
    }
    Ok(())
}
