// Constants and registers. `as` where std has no `From` for it, and `try_from` would give an `Err` that cannot come.
ghost use Rattle.std.specs.Prelude.{ℕ, ◌≤◌};
ghost use Rattle.rules.specs.Format.{twos_complement, read_constant, read_register};
ghost use Rattle.writing.specs.Out.{Writes};
ghost use Rattle.printed.specs.Print.{print_value, print_arith};
ghost use Rattle.infix.specs.Prints.{Prints};

use crate::Walked;
use crate::body::Body;
use expression::num32_at;
use writing::{put, put_decimal};

// From this number on a number of 32 bits stands for one below zero.
const SIGN: u32 = 2147483648;

// A number of 32 bits as two's complement, digit by digit: no contract names the bytes that `write!` puts into a lent
// slice.
pub fn put_value(out: &mut [u8], from: usize, n: u32) -> usize
    ensures { Writes (print_value (twos_complement n)) out.old from out.new result }
{
    if n < SIGN {
        put_decimal(out, from, n as usize)
    } else {
        let at = put(out, from, b'-');
        put_decimal(out, at, n.wrapping_neg() as usize)
    }
}

impl Body<'_> {
    // The constant whose four bytes stand at p. What does not read is left free, so the place stays.
    pub(crate) fn print_constant(&self, p: usize, out: &mut [u8], from: usize) -> Walked
        requires { p ≤ self.now.end }
        ensures { (strength : ℕ) → Prints (print_arith strength) (read_constant self.now.s.now self.now.end p) out.old from out.new result }
    {
        if self.end < p + 4 {
            return Walked { next: p, at: from };
        }
        Walked {
            next: p + 4,
            at: put_value(out, from, num32_at(self.s, p)),
        }
    }

    // The register whose number stands at p. What does not read is left free, so the place stays.
    pub(crate) fn print_register(&self, p: usize, out: &mut [u8], from: usize) -> Walked
        ensures { (n strength : ℕ) → Prints (print_arith strength) (read_register self.now.s.now self.now.end n p)
            out.old from out.new result }
    {
        if self.end <= p {
            return Walked { next: p, at: from };
        }
        let behind = put(out, from, b'r');
        Walked {
            next: p + 1,
            at: put_decimal(out, behind, usize::from(self.s[p])),
        }
    }
}
