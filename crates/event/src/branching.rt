// The event of a thread at an if.
ghost use Rattle.std.specs.Prelude.{◌≡◌, ◌≤◌, ◌<◌, length, get_or};
ghost use Rattle.rules.specs.Constants.{deepest, most_statements, most_registers};
ghost use Rattle.rules.specs.Program as P;
ghost use Rattle.rules.specs.Format.{got, read_condition};
ghost use Rattle.rules.specs.Search.{unless_empty};
ghost use Rattle.expression.specs.Comparison.{narrowed_of};
ghost use Rattle.state.specs.Shape.{Sizes};
ghost use Rattle.state.specs.Cells.{decode};
ghost use Rattle.event.specs.Act.{Ticks, moved_by, mover, effect_of};
ghost use Rattle.event.specs.Stack.{SameStack, Grows, Leaves};

use crate::act::Event;
use crate::fetch::next;
use crate::stack::Stack;
use expression::{Branch, branch_on};
use interval::Span;
use refusal::Refusal;
use state::{NUMBERS_PER_STATE, at_of, put_registers, registers_of};

// One way of a branch: the state with the registers that are left, or no state where none are.
fn way(
    cells: &[i32; NUMBERS_PER_STATE],
    v: Event,
    at: u8,
    left: Option<[Span; 8]>,
    stack: &mut Stack,
)
    requires { Ticks v }
    ensures same { SameStack stack.old stack.new }
    ensures grows { (z : Sizes) → Grows z stack.old stack.new
        (unless_empty (λ rs. moved_by z (decode cells.now) v at rs) (narrowed_of (get_or z.regs v.thread 0) left)) }
{
    let m = v.move_to(at);
    if let Some(regs) = left {
        stack.push(|slot| put_registers(slot, cells, m, regs));
    }
}

// The no state first, so that the yes state stands above it. The target goes by `as`: std has no `From` for this, and `try_from` would
// give an `Err` that cannot come.
pub(crate) fn branch(
    sheet: &[u8],
    cells: &[i32; NUMBERS_PER_STATE],
    v: Event,
    target: usize,
    at: usize,
    end: usize,
    stack: &mut Stack,
) -> Result<(), Refusal>
    requires ticks { Ticks v }
    requires live { (mover (decode cells.now) v).at < most_statements }
    requires target { target < most_statements }
    requires few { v.registers ≤ most_registers }
    requires inside { end ≤ length sheet.now }
    ensures same { SameStack stack.old stack.new }
    ensures leaves { (z : Sizes) (a : P.Condition) → get_or z.regs v.thread 0 ≡ v.registers
        → read_condition deepest sheet.now end v.registers at ≡ got a end
        → Leaves z stack.old stack.new result
        (effect_of z (decode cells.now) v v.registers (P.branch target a)) }
{
    let regs = registers_of(cells, v.thread);
    let Branch { check, yes, no } = branch_on(sheet, at, end, v.registers, regs);
    check?;
    way(cells, v, next(at_of(cells, v.thread)), no, stack);
    way(cells, v, target as u8, yes, stack);
    Ok(())
}
