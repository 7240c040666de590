// The stack of states in the lent buffer, and a new state on top of it.
ghost use Rattle.std.specs.Prelude.{◌≡◌, ◌+◌, ◌≤◌, length, List, ℤ};
ghost use Rattle.std.specs.Fn.{FnOnceTakesAtMut, FnOnceReturnsAtMut};
ghost use Rattle.rules.specs.Constants.{numbers_per_state};
ghost use Rattle.event.specs.Push.{Room};

use state::NUMBERS_PER_STATE;

// How many states the stack holds, and for how many the buffer has room. The height counts up to one more than there are slots, so that
// the end of a turn can tell.
#[derive(Drop)]
pub struct Stack<'a> {
    pub work: &'a mut [i32],
    pub height: usize,
    pub slots: usize,
    ghost room: { Room slots work.now },
    ghost high: { height ≤ slots + 1 },
}

impl<'a> Stack<'a> {
    ghost use Rattle.event.specs.Stack.{SameStack, PutOnTop};

    // One state more: `put` writes its numbers into the slot that is due. Where no slot is left that is the last one: the turn then ends
    // with refusal 14, and no state counts.
    pub(crate) fn push<F: FnOnce(&mut [i32])>(&mut self, put: F)
        requires { (slot : List ℤ) → length slot ≡ numbers_per_state → FnOnceTakesAtMut F.FnOnce put slot }
        ensures same { SameStack self.old self.new }
        ensures pushed { PutOnTop (λ old new. FnOnceReturnsAtMut F.FnOnce put old tt new) self.old self.new }
    {
        let from = self.height.min(self.slots - 1) * NUMBERS_PER_STATE;
        put(&mut self.work[from..from + NUMBERS_PER_STATE]);
        self.height = (self.height + 1).min(self.slots + 1);
    }
}
