// What the call gives, and the lent buffer of a refusal: zeros.
ghost use Rattle.std.specs.Prelude.{◌≡◌, length};
ghost use Rattle.rules.specs.Refusal.{number};
ghost use Rattle.refusal.specs.Shape.{rule_of};
ghost use Rattle.print.specs.Shape.{printing_of, refused_by};

use refusal::Fault;

// The numbers that the C call writes: README names it as the answer of `print_sheet`. Refusal 0: so many bytes were written. Another: the
// place in the sheet, and zeros.
#[derive(Clone, Copy)]
pub struct Printing {
    pub refusal: u32,
    pub place: usize,
    pub written: usize,
}

pub(crate) fn refuse(text: &mut [u8], fault: Fault) -> Printing
    ensures { printing_of result text.new ≡ refused_by (length text.old) (number (rule_of fault.refusal)) fault.place }
{
    text.fill(0);
    Printing {
        refusal: u32::from(fault.refusal),
        place: fault.place,
        written: 0,
    }
}
