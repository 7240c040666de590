// What a search, and the following of a record, keep of the index beside the table of places.
ghost use Rattle.std.specs.Prelude.{◌≡◌};
ghost use Rattle.event.specs.Plan.{plan_of};

use field::Time;
use reader::threads::ThreadEntry;
use reader::{Index, MOST_THREADS};

#[derive(Clone, Copy)]
pub struct Plan {
    pub threads: usize,
    pub limit: Time,
    pub entries: [ThreadEntry; MOST_THREADS],
}

impl<'a> From<&'a Index> for Plan {
    ghost from_gives = { λ i p. p ≡ plan_of i.now };

    fn from(index: &'a Index) -> Plan {
        Plan {
            threads: index.threads,
            limit: index.limit,
            entries: index.entries,
        }
    }
}
