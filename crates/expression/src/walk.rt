// What each step of a walk along the bytes of an expression or a condition has at hand.
ghost use Rattle.std.specs.Prelude.{◌≡◌, ◌≤◌, length};
ghost use Rattle.rules.specs.Constants.{most_registers};

use interval::Span;

// The sheet's bytes, the end of the body, and the registers: the first n of the eight are the thread's. (Memory is fixed, with no
// heap: there are always eight places, and n counts.)
#[derive(Clone, Copy)]
pub(crate) struct Walk<'a> {
    pub s: &'a [u8],
    pub end: usize,
    pub n: usize,
    pub regs: [Span; 8],
    ghost inside: { end ≤ length s.now },
    ghost few: { n ≤ most_registers },
}

impl<'a> Walk<'a> {
    // The same walk on other registers. (A struct with a ghost field has no `..` form.)
    pub(crate) fn with_registers(&self, regs: [Span; 8]) -> Walk<'a>
        ensures same { (result.s ≡ self.now.s) × ((result.end ≡ self.now.end) × (result.n ≡ self.now.n)) }
        ensures new { result.regs ≡ regs }
    {
        Walk {
            s: self.s,
            end: self.end,
            n: self.n,
            regs,
        }
    }
}
