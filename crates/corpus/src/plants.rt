// What is planted in the entries of the corpora that state numbers and a sheet.
ghost use Rattle.corpus.specs.Plants.{planted_of};
ghost use Rattle.std.specs.Prelude.{◌≡◌};

// One of an entry's numbers is wrong, or its sheet.
#[derive(Clone, Copy, PartialEq, Eq)]
pub enum Planted {
    Nothing,
    WrongNumber,
    WrongSheet,
}

// The error is the number itself, where it stands for nothing.
impl TryFrom<u8> for Planted {
    type Error = u8;

    ghost try_from_gives = { λ code planted. planted ≡ planted_of code };

    fn try_from(code: u8) -> Result<Planted, u8> {
        match code {
            0 => Ok(Planted::Nothing),
            1 => Ok(Planted::WrongNumber),
            2 => Ok(Planted::WrongSheet),
            _ => Err(code),
        }
    }
}
