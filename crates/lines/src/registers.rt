// The `reg` lines of a thread, counted before they are read one by one: the thread's field, which stands before them, says how many.
ghost use Rattle.std.specs.Prelude.{◌≡◌, ◌≤◌, min, length, drop};
ghost use Rattle.text.specs.Lines.{reg_due};
ghost use Rattle.lines.specs.Registers.{ahead_of};

use crate::ranges::range_line;

// How many there are from here on, up to 255; it goes on while a `reg` line stands next.
pub(crate) fn registers_ahead(s: &[u8], p: usize) -> u8
    requires { p ≤ length s.now }
    ensures { result ≡ min (ahead_of reg_due (drop p s.now)) 255 }
{
    let mut n: u8 = 0;
    let mut q = p;
    while let Ok(x) = range_line(s, q, b"reg", true) {
        n = n.saturating_add(1);
        q = x.place;
    }
    n
}
