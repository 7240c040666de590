// Ticks of a clock, and where a sheet gives them: a statement's times in two bytes, the header's numbers in four.
ghost use Rattle.std.specs.Prelude.{◌≡◌, ◌+◌, ◌≤◌, ◌<◌, length};
ghost use Rattle.rules.specs.Format.{num16, num32};

use expression::{num16_at, num32_at};

// A tick of a clock, or a number of ticks.
#[derive(Clone, Copy, PartialEq, Eq, PartialOrd, Ord)]
pub struct Time(pub u32);

pub(crate) fn time16_at(s: &[u8], p: usize) -> Time
    requires { p + 2 ≤ length s.now }
    ensures { (result.0 ≡ num16 s.now p) × (result.0 < 65536) }
{
    Time(u32::from(num16_at(s, p)))
}

pub(crate) fn time32_at(s: &[u8], p: usize) -> Time
    requires { p + 4 ≤ length s.now }
    ensures { result.0 ≡ num32 s.now p }
{
    Time(num32_at(s, p))
}
