// One event, on a state that is lent.
ghost use Rattle.record.specs.Step.{Asks, Takes};

use crate::replay::Replay;
use crate::sheet::Sheet;
use crate::step::replay;
use refusal::Refusal;

// The lent state takes one event: what the step makes of it is written back; an event that is refused leaves it as it was.
pub(crate) fn take_event(x: &mut Replay, sheet: &Sheet, t: usize, clock: u16) -> Result<(), Refusal>
    requires { Asks sheet.now x.old }
    ensures { Takes sheet.now x.old t clock x.new result }
{
    *x = replay(sheet, *x, t, clock)?;
    Ok(())
}
