// Reads a corpus of lookups from standard input (its form: tools/lookup_corpus.rs), looks for each entry's name in its two files,
// and prints how many lookups it compared and how many had another answer than the stated one: the refusal, the file, the place, the
// size of the part handed back, or a byte of the part, which is to be the file's from the place on.
//
// Some entries are planted, so that the comparison itself is tried: one of their numbers is wrong, or the program takes something
// else for the part. It prints how many there are of both, and how many of these it noticed.
//
// Numbers are made wider by `as`: `usize` has no `From<u32>`, `u64` none of a `usize`, and a `try_from` would give an error that cannot
// come.
#![tactic(auto)]

ghost use Rattle.std.specs.Prelude.{◌≤◌, length};

use corpus::{Count, bytes_at, front, over_entries, read_front};
use shelf::lookup;
use std::io::{Print, Read};

// Bytes of a file at most.
const LONGEST: usize = 200000;

// What is planted in an entry: one of the four numbers is wrong; another byte is taken for the part's first or its last, or the part is
// taken one byte too short. The error is the number itself, where it stands for nothing.
#[derive(Clone, Copy, PartialEq, Eq)]
enum Planted {
    Nothing,
    Number,
    First,
    Last,
    Short,
}

impl TryFrom<u8> for Planted {
    type Error = u8;

    fn try_from(code: u8) -> Result<Planted, u8> {
        match code {
            0 => Ok(Planted::Nothing),
            1 => Ok(Planted::Number),
            2 => Ok(Planted::First),
            3 => Ok(Planted::Last),
            4 => Ok(Planted::Short),
            _ => Err(code),
        }
    }
}

// An entry but for the bytes of its files, of which these are the lengths. Its refusal and its file are numbers as the corpus states them,
// and as C gets them.
#[derive(Clone, Copy)]
struct Entry {
    name: u8,
    customer: usize,
    house: usize,
    refusal: u64,
    file: u64,
    place: usize,
    size: usize,
    planted: Option<Planted>,
}

impl From<[u8; 20]> for Entry {
    fn from(b: [u8; 20]) -> Entry {
        Entry {
            name: b[0],
            customer: u32::from_be_bytes(bytes_at(&b, 1)) as usize,
            house: u32::from_be_bytes(bytes_at(&b, 5)) as usize,
            refusal: u64::from(b[9]),
            file: u64::from(b[10]),
            place: u32::from_be_bytes(bytes_at(&b, 11)) as usize,
            size: u32::from_be_bytes(bytes_at(&b, 15)) as usize,
            planted: Planted::try_from(b[19]).ok(),
        }
    }
}

// Whether the four numbers are the stated ones, and whether the part is.
#[derive(Clone, Copy)]
struct Verdict {
    numbers: bool,
    part: bool,
}

// The entries that are right, of which none is to differ, and those that have a wrong number or a wrong part.
#[derive(Clone, Copy, Default)]
struct Tally {
    lookups: Count,
    numbers: Count,
    parts: Count,
}

impl Tally {
    // One entry more. What is planted by a number that is not known counts as a wrong part.
    fn with(self, planted: Option<Planted>, v: Verdict) -> Tally {
        match planted {
            Some(Planted::Nothing) => Tally {
                lookups: self.lookups.with(!(v.numbers && v.part)),
                ..self
            },
            Some(Planted::Number) => Tally {
                numbers: self.numbers.with(!v.numbers),
                ..self
            },
            Some(Planted::First | Planted::Last | Planted::Short) | None => Tally {
                parts: self.parts.with(v.numbers && !v.part),
                ..self
            },
        }
    }
}

fn same_numbers(answer: [u64; 3], size: usize, e: Entry) -> bool {
    answer == [e.refusal, e.file, e.place as u64] && size == e.size
}

// How many bytes of the part are taken for it.
fn taken_size(size: usize, planted: Option<Planted>) -> usize
    ensures { result ≤ size }
{
    if planted == Some(Planted::Short) {
        size.saturating_sub(1)
    } else {
        size
    }
}

// Where another byte is taken for the part's, if anywhere.
fn changed_at(size: usize, planted: Option<Planted>) -> Option<usize> {
    match planted? {
        Planted::First => Some(0),
        Planted::Last => size.checked_sub(1),
        _ => None,
    }
}

// The part's byte, or another: 255 - b is never b.
fn taken_byte(b: u8, changed: bool) -> u8 {
    if changed { 255 - b } else { b }
}

fn same_bytes(part: &[u8], stated: &[u8], changed: Option<usize>) -> bool {
    part.len() == stated.len()
        && part
            .iter()
            .zip(stated)
            .enumerate()
            .all(|(i, (b, s))| taken_byte(*b, changed == Some(i)) == *s)
}

// Whether the part has the stated size and the file's bytes from the stated place on. What is stated may reach beyond the file.
fn same_part(part: &[u8], file: &[u8], e: Entry) -> bool {
    taken_size(part.len(), e.planted) == e.size
        && file
            .get(e.place..)
            .and_then(|rest| rest.get(..e.size))
            .is_some_and(|stated| {
                same_bytes(&part[..e.size], stated, changed_at(e.size, e.planted))
            })
}

// The files are the fronts of the buffers. File 0 is the customer's.
fn compare(e: Entry, customer: &[u8], house: &[u8]) -> Verdict
    requires customer_in_bounds { e.customer ≤ length customer.now }
    requires house_in_bounds { e.house ≤ length house.now }
{
    let customer = &customer[..e.customer];
    let house = &house[..e.house];
    // No lookup gives refusal 7 or file 7: what is not written shows.
    let mut answer = [7u64; 3];
    let part = lookup(e.name, customer, house, &mut answer);
    let file = if e.file == 0 { customer } else { house };
    Verdict {
        numbers: same_numbers(answer, part.len(), e),
        part: same_part(part, file, e),
    }
}

// The count with one entry more; none where the corpus does not hold it whole.
fn compare_next<R: Read>(
    from: &mut R,
    t: Tally,
    customer: &mut [u8],
    house: &mut [u8],
) -> Option<Tally> {
    let e = Entry::from(front(from)?);
    read_front(from, customer, e.customer)?;
    read_front(from, house, e.house)?;
    Some(t.with(e.planted, compare(e, customer, house)))
}

fn main(rt: HostRuntime) {
    let mut customer = [0u8; LONGEST];
    let mut house = [0u8; LONGEST];
    let Some(t) = over_entries(&mut rt.stdin(), Tally::default(), |from, t| {
        compare_next(from, t, &mut customer, &mut house)
    }) else {
        return;
    };
    let _ = println!(rt;
        "{} lookups compared, {} differ; noticed of what is planted: {} wrong numbers, {} wrong parts",
        t.lookups.all, t.lookups.noticed, t.numbers, t.parts
    );
}
