// What the call gives, and the lent buffer of a refusal: zeros.
ghost use Rattle.std.specs.Prelude.{◌≡◌, length};
ghost use Rattle.rules.specs.Refusal.{number};
ghost use Rattle.refusal.specs.Shape.{rule_of};
ghost use Rattle.convert.specs.Shape.{conversion_of, refused_by};

use refusal::Fault;

// What the call tells, as the numbers that C gets: README names it as the answer of `convert_text`. Refusal 0: so many bytes were written.
// Another: the place in the text, and zeros.
#[derive(Clone, Copy)]
pub struct Conversion {
    pub refusal: u32,
    pub place: usize,
    pub written: usize,
}

pub(crate) fn refuse(sheet: &mut [u8], fault: Fault) -> Conversion
    ensures { conversion_of result sheet.new ≡ refused_by (length sheet.old) (number (rule_of fault.refusal)) fault.place }
{
    sheet.fill(0);
    Conversion {
        refusal: u32::from(fault.refusal),
        place: fault.place,
        written: 0,
    }
}
