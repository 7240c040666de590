// What the tool says no to, as data: a case for each row of 01's table, in its order, then those of 02.
#![tactic(auto)]

ghost use Rattle.std.specs.Prelude.{◌≡◌};
ghost use Rattle.rules.specs.Refusal.{number};
ghost use Rattle.refusal.specs.Shape.{rule_of, fault_of};

#[derive(Clone, Copy, PartialEq, Eq)]
pub enum Refusal {
    Short,
    OutOfTurn,
    BadLength,
    OffRange,
    NoSuchName,
    BadExpression,
    NoHalt,
    TooMany,
    TooLong,
    NoReading,
    Stuck,
    PastLimit,
    OutOfSteps,
    OutOfRoom,
    LabelBroken,
    OffScale,
    ChangedSince,
    OutputFull,
    Unreadable,
    NotRun,
}

// A refusal, and the place in the sheet that it speaks of.
#[derive(Clone, Copy)]
pub struct Fault {
    pub refusal: Refusal,
    pub place: usize,
}

// The number that 01 or 02 gives a refusal; no refusal has 0.
impl From<Refusal> for u32 {
    ghost from_gives = { λ r n. n ≡ number (rule_of r) };

    fn from(r: Refusal) -> u32 {
        match r {
            Refusal::Short => 1,
            Refusal::OutOfTurn => 2,
            Refusal::BadLength => 3,
            Refusal::OffRange => 4,
            Refusal::NoSuchName => 5,
            Refusal::BadExpression => 6,
            Refusal::NoHalt => 7,
            Refusal::TooMany => 8,
            Refusal::TooLong => 9,
            Refusal::NoReading => 10,
            Refusal::Stuck => 11,
            Refusal::PastLimit => 12,
            Refusal::OutOfSteps => 13,
            Refusal::OutOfRoom => 14,
            Refusal::LabelBroken => 15,
            Refusal::OffScale => 16,
            Refusal::ChangedSince => 18,
            Refusal::OutputFull => 19,
            Refusal::Unreadable => 20,
            Refusal::NotRun => 21,
        }
    }
}

// A refusal that speaks of no place has place 0.
impl From<Refusal> for Fault {
    ghost from_gives = { λ r f. f ≡ fault_of r };

    fn from(refusal: Refusal) -> Fault {
        Fault { refusal, place: 0 }
    }
}
