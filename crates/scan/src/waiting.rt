// Codes that go before what is written. They wait beside it, and it is moved once for as many as are kept, and once for the last ones. The
// output and the place stay apart, since each call has another place: a struct would be made anew at each.
ghost use Rattle.std.specs.Prelude.{◌≤◌};

use crate::output::insert;

// The most codes that wait where a text is converted.
pub const MOST_KEPT: usize = 32;

// At most N codes. An array with a count: memory is fixed, and no crate but std is there to take a list of fixed room from.
#[derive(Clone, Copy)]
pub struct Waiting<const N: usize> {
    codes: [u8; N],
    count: usize,
    ghost few: { count ≤ N },
}

impl<const N: usize> Waiting<N> {
    ghost use Rattle.std.specs.Prelude.{◌≡◌, [], ◌+◌, ◌≤◌, ◌<◌, min, length};
    ghost use Rattle.scan.specs.Writing.{inserted};
    ghost use Rattle.scan.specs.Waiting.{waiting, Keeps};

    // None yet.
    #[tactic(auto, unfolding(crate::specs::Waiting::waiting))]
    pub fn none() -> Waiting<N>
        ensures { waiting result ≡ [] }
    {
        Waiting {
            codes: [0; N],
            count: 0,
        }
    }

    // One code more goes before what stands from at to end; where the others fill the room for them, they are put there first. The end
    // of what is written then.
    pub fn keep(&mut self, out: &mut [u8], at: usize, end: usize, code: u8) -> usize
        requires { (at ≤ end) × (end ≤ 65536) × (0 < N) × (N ≤ 65536) }
        ensures { Keeps N out.old at end (waiting self.old) code out.new result (waiting self.new) }
    {
        let mut end = end;
        if self.count == N {
            end = self.insert(out, at, end);
            self.count = 0;
        }
        self.codes[self.count] = code;
        self.count += 1;
        end
    }

    // The codes are put before what stands from at to end, if there is room; where what is written ends then.
    #[tactic(auto, unfolding(crate::specs::Waiting::waiting))]
    pub fn insert(&self, out: &mut [u8], at: usize, end: usize) -> usize
        requires { (at ≤ end) × (end ≤ 65536) × (N ≤ 65536) }
        ensures inserts { out.new ≡ inserted out.old at end (waiting self.now) }
        ensures ends { result ≡ min (end + length (waiting self.now)) 65536 }
    {
        if self.count == 0 {
            return end;
        }
        insert(out, at, end, &self.codes[..self.count])
    }
}
