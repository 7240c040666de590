// The lines `limit`, `budget` and `label`, which share the header's field.
ghost use Rattle.std.specs.Prelude.{◌≡◌, true, ◌≤◌, ◌<◌, length};
ghost use Rattle.std.proofs.lemmas.List.Edits.{sets};
ghost use Rattle.convert.specs.Head.{Heads, head_place, header_bytes, fault_at, all_fit};

use lines::fields::put_head;
use lines::ranges::{number_line, range_line};
use scan::{TOO_BIG, put_four};

// 01's bounds, `greatest_limit` and `greatest_budget` of the rules; those in `field` are a `Time` and a number of 32 bits.
const GREATEST_LIMIT: u64 = 1000000;

const GREATEST_BUDGET: u64 = 10000000;

// The place behind the three lines, the start of the line that is at fault if their field is, and whether their numbers fit.
#[derive(Clone, Copy)]
pub(crate) struct Head {
    pub place: usize,
    pub start: usize,
    pub fits: bool,
}

// The numbers of the three lines.
#[derive(Clone, Copy)]
struct Numbers {
    limit: u64,
    budget: u64,
    low: u64,
    high: u64,
}

impl Numbers {
    // "The earlier if two": limit before budget before label.
    #[tactic(auto, unfolding(text::specs::Convert::one_to))]
    fn fault_at(self, budget_at: usize, label_at: usize) -> usize
        ensures { result ≡ fault_at self.limit self.budget budget_at label_at }
    {
        if !(1..=GREATEST_LIMIT).contains(&self.limit) {
            0
        } else if !(1..=GREATEST_BUDGET).contains(&self.budget) {
            budget_at
        } else {
            label_at
        }
    }

    #[tactic(auto, unfolding(text::specs::Convert::fits_four))]
    fn fit(self) -> bool
        ensures { result ≡ all_fit self.limit self.budget self.low self.high }
    {
        self.limit < TOO_BIG && self.budget < TOO_BIG && self.low < TOO_BIG && self.high < TOO_BIG
    }

    fn put(self, out: &mut [u8])
        requires { (self.limit < 4294967296) × (self.budget < 4294967296) × (self.low < 4294967296) × (self.high < 4294967296) }
        ensures { out.new ≡ sets out.old 0 (header_bytes self.limit self.budget self.low self.high) }
    {
        put_head(out, 0, 1, 16);
        put_four(out, 3, self.limit);
        put_four(out, 7, self.budget);
        put_four(out, 11, self.low);
        put_four(out, 15, self.high);
    }

    // Where all of them fit.
    #[tactic(auto, unfolding(text::specs::Convert::fits_four))]
    fn put_fitting(self, out: &mut [u8]) -> bool
        ensures value { result ≡ all_fit self.limit self.budget self.low self.high }
        ensures out_after { result ≡ true → out.new ≡ sets out.old 0 (header_bytes self.limit self.budget self.low self.high) }
    {
        let fits = self.fit();
        if fits {
            self.put(out);
        }
        fits
    }
}

pub(crate) fn head_at(s: &[u8], out: &mut [u8]) -> Result<Head, usize>
    requires { length out.old < 65536 }
    ensures heads { Heads s.now out.old out.new result }
    ensures result_in_bounds { head_place result ≤ length s.now }
{
    let (limit, budget_at) = number_line(s, 0, b"limit")?;
    let (budget, label_at) = number_line(s, budget_at, b"budget")?;
    let label = range_line(s, label_at, b"label", false)?;
    let numbers = Numbers {
        limit,
        budget,
        low: label.low,
        high: label.high,
    };
    Ok(Head {
        place: label.place,
        start: numbers.fault_at(budget_at, label_at),
        fits: numbers.put_fitting(out),
    })
}
