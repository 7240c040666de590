// The codes of statements.
#![tactic(auto, unfolding(rules::specs::Format::length_fits))]

ghost use Rattle.std.specs.Prelude.{◌≡◌};
ghost use Rattle.rules.specs.Format.{length_fits};
ghost use Rattle.field.specs.Codes.{code_of, number_of};

use refusal::Refusal;

// 01's statement codes, from 0 on.
#[derive(Clone, Copy)]
pub(crate) enum Code {
    Halt,
    Skip,
    Assign,
    Branch,
    Store,
    Load,
    Unlock,
    Lock,
}

impl TryFrom<u8> for Code {
    type Error = Refusal;

    ghost try_from_gives = { λ number code. code ≡ code_of number };

    fn try_from(number: u8) -> Result<Code, Refusal> {
        match number {
            0 => Ok(Code::Halt),
            1 => Ok(Code::Skip),
            2 => Ok(Code::Assign),
            3 => Ok(Code::Branch),
            4 => Ok(Code::Store),
            5 => Ok(Code::Load),
            6 => Ok(Code::Unlock),
            7 => Ok(Code::Lock),
            _ => Err(Refusal::OffRange),
        }
    }
}

impl Code {
    // Whether the body of a statement of this code may have n bytes.
    pub fn length_fits(self, n: usize) -> bool
        ensures { result ≡ length_fits (number_of self) n }
    {
        match self {
            Code::Halt | Code::Skip => n == 5,
            Code::Assign | Code::Branch => 7 <= n,
            Code::Store | Code::Load => n == 7,
            Code::Unlock | Code::Lock => n == 6,
        }
    }
}
