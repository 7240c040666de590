// What is shared by the programs that compare the library with a corpus: numbers in bytes, counting, reading, and what is planted.
#![tactic(auto)]

ghost use Rattle.corpus.specs.Entries.{ConsumesBelow, GoesThroughAll};
ghost use Rattle.std.specs.Io.KnownBytes.{Consumes};
ghost use Rattle.std.specs.Prelude.{◌≡◌, true, false, cond, ◌&&◌, ◌+◌, ◌*◌, ◌<◌, ◌≤◌, ltb, length, take, drop, replicate, slice_range, IfNone, IfSome, is_some};

use files::read_full;
use std::io::Read;

mod plants; // what is planted in an entry
mod tallies; // how many entries of a kind there are

pub use plants::Planted;
pub use tallies::Count;

// No count goes beyond this, so that none wraps.
const MOST: u64 = 1000000;

// ---- numbers

// A number of two bytes, the high one first.
pub fn two(a: u8, b: u8) -> u64
    ensures value { result ≡ a * 256 + b }
    ensures upper_bound { result < 65536 }
{
    u64::from(u16::from_be_bytes([a, b]))
}

// The bytes from a place on, as many as are wanted.
pub fn bytes_at<const N: usize>(bytes: &[u8], at: usize) -> [u8; N]
    requires { at + N ≤ length bytes.now }
    ensures { result ≡ slice_range bytes.now at (at + N) }
{
    let mut wanted = [0u8; N];
    wanted.copy_from_slice(&bytes[at..at + N]);
    wanted
}

// One more where the fact holds and the most is not reached.
pub fn counted(n: u64, fact: bool) -> u64
    ensures { result ≡ cond (fact && ltb n 1000000) (n + 1) n }
{
    if fact && n < MOST { n + 1 } else { n }
}

// ---- buffers

// What a lent buffer holds before each call.
pub const FILLED: u8 = 7;

// Whether each item is this value.
#[tactic(auto, using(crate::proofs::Same::all_same))]
pub fn all_are<T: Copy + PartialEq>(work: &[T], value: T) -> bool
    requires equal_is_same { (x : T) (y : T) → T.eq x y ≡ true → x ≡ y }
    requires same_is_equal { (x : T) → T.eq x x ≡ true }
    ensures work_value { result ≡ true → work.now ≡ replicate (length work.now) value }
    ensures value { work.now ≡ replicate (length work.now) value → result ≡ true }
{
    work.iter().all(|x| *x == value)
}

// Copies bytes into a buffer of the same length; none, and nothing copied, where the lengths differ.
pub fn copy_bytes(from: &[u8], to: &mut [u8]) -> Option<()>
    ensures to_after { is_some result ≡ true → to.new ≡ from.now }
    ensures value { length from.now ≡ length to.old → is_some result ≡ true }
    ensures to_unchanged { is_some result ≡ false → to.new ≡ to.old }
{
    if from.len() != to.len() {
        return None;
    }
    to.copy_from_slice(from);
    Some(())
}

// ---- reading

// The next N bytes; none where there are fewer.
pub fn front<const N: usize, R: Read>(from: &mut R) -> Option<[u8; N]>
    ensures bytes { IfSome result (Consumes (R.remaining from.old) (R.remaining from.new)) }
    ensures fewer { IfNone result (ConsumesBelow N (R.remaining from.old) (R.remaining from.new)) }
{
    let mut bytes = [0u8; N];
    if read_full(from, &mut bytes) < N {
        return None;
    }
    Some(bytes)
}

// Reads the next n bytes to the front of the buffer; none where there are fewer, or where the buffer is shorter. It does not lend the
// front: `buffer_unchanged`, of what stands behind it, is not proved of a buffer that the result borrows from.
pub fn read_front<R: Read>(from: &mut R, buffer: &mut [u8], n: usize) -> Option<()>
    ensures n_in_bounds { is_some result ≡ true → n ≤ length buffer.old }
    ensures buffer_unchanged { drop n buffer.new ≡ drop n buffer.old }
    ensures bytes { is_some result ≡ true → Consumes (R.remaining from.old) (R.remaining from.new) (take n buffer.new) }
{
    (n <= buffer.len() && read_full(from, &mut buffer[..n]) == n).then_some(())
}

// Goes through the entries of a corpus, whose number stands before them, as long as each is there whole. What those before came to goes on
// to the next one. None where not even their number is there.
pub fn over_entries<R: Read, T: Copy, F: FnMut(&mut R, T) -> Option<T>>(
    from: &mut R,
    start: T,
    mut next: F,
) -> Option<T>
    requires { F.IsAlwaysCallable next }
    ensures entries { IfSome result (GoesThroughAll F.FnMut R.remaining next from.old start from.new) }
    ensures no_number { IfNone result (ConsumesBelow 4 (R.remaining from.old) (R.remaining from.new)) }
{
    let count = front(from)?;
    let mut so_far = start;
    for _ in 0..u32::from_be_bytes(count) {
        let Some(now) = next(from, so_far) else {
            return Some(so_far);
        };
        so_far = now;
    }
    Some(so_far)
}
