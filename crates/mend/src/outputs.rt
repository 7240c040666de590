// What the call gives, and both outputs of a refusal: zeros.
ghost use Rattle.std.specs.Prelude.{◌≡◌, length};
ghost use Rattle.refusal.specs.Shape.{rule_of};
ghost use Rattle.mended.specs.Mend.{refused_with};
ghost use Rattle.mend.specs.Shape.{mending_of};

use refusal::Fault;

// What the call gives, as C gets it. Refusal 0: so many bytes and so many numbers, two a change, were written. Another: the place in the
// sheet, and zeros.
#[derive(Clone, Copy)]
pub struct Mending {
    pub refusal: u32,
    pub place: usize,
    pub written: usize,
    pub listed: usize,
}

pub(crate) fn refuse(mended: &mut [u8], changes: &mut [u32], fault: Fault) -> Mending
    ensures { mending_of result mended.new changes.new
        ≡ refused_with (length mended.old) (length changes.old) (rule_of fault.refusal) fault.place }
{
    mended.fill(0);
    changes.fill(0);
    Mending {
        refusal: u32::from(fault.refusal),
        place: fault.place,
        written: 0,
        listed: 0,
    }
}
