// How many entries of a kind there are.
ghost use Rattle.corpus.specs.Told.{told};
ghost use Rattle.std.specs.Prelude.{◌≡◌, true, cond, ◌&&◌, ◌+◌, ltb, Some};

use crate::counted;
use std::fmt;

// How many entries there are of a kind, and how many of these differ where they are to, or where they are not to.
#[derive(Clone, Copy, Default)]
pub struct Count {
    pub all: u64,
    pub noticed: u64,
}

impl Count {
    // With one entry more.
    pub fn with(self, noticed: bool) -> Count
        ensures all { result.all ≡ cond (ltb self.all 1000000) (self.all + 1) self.all }
        ensures noticed { result.noticed ≡ cond (noticed && ltb self.noticed 1000000) (self.noticed + 1) self.noticed }
    {
        Count {
            all: counted(self.all, true),
            noticed: counted(self.noticed, noticed),
        }
    }
}

impl fmt::Display for Count {
    ghost output = { λ c. Some (told c.noticed c.all) };

    fn fmt<W: fmt::Write>(&self, f: &mut fmt::Formatter<W>) -> fmt::Result {
        write!(f, "{} of {}", self.noticed, self.all)
    }
}
