// A sheet is looked for by its name in the customer's file, else in ours (02, ticket 14).
// `as u64` of a usize: std has no `From` for it, and `try_from` would give an `Err` that cannot come.
#![tactic(auto)]

mod pairs; // one file

ghost use Rattle.std.specs.Prelude.{◌≡◌, ◌+◌, ◌≤◌, length, IfOk, IfSome};
ghost use Rattle.rules.specs.Demands.{Unchanged};
ghost use Rattle.shelf.specs.Pairs.{look_in};
ghost use Rattle.shelf.specs.Lookup as Rule;
ghost use Rattle.shelf.specs.Shape.{rule_file, found_in, answer_of, numbers_of, Fits, IsPart, three_of, FourIn};

use crate::pairs::{Sheet, look_in};
use refusal::{Fault, Refusal};
use writing::put_front;

// The customer's file, or the house's.
#[derive(Clone, Copy)]
enum File {
    Customers,
    Ours,
}

// 0 the customer's file, 1 ours.
impl From<File> for u64 {
    ghost from_gives = { λ f n. n ≡ Rule.file_number (rule_file f) };

    fn from(f: File) -> u64 {
        match f {
            File::Customers => 0,
            File::Ours => 1,
        }
    }
}

// The file in which a sheet was found, and where.
#[derive(Clone, Copy)]
struct Found {
    file: File,
    sheet: Sheet,
}

// The file that a lookup is refused for, and what is at fault there; where both files lack the name: ours, at 0.
#[derive(Clone, Copy)]
struct Refused {
    file: File,
    fault: Fault,
}

// The answer in numbers, as C gets them. Refusal 0: the sheet stands in the file from the place on, so many bytes. Another: the file
// and the place at fault, and 0 bytes.
#[derive(Clone, Copy)]
struct Numbers {
    refusal: u32,
    file: u64,
    place: usize,
    size: usize,
}

fn numbers_of(x: Result<Found, Refused>) -> Numbers
    ensures { result ≡ numbers_of (answer_of x) }
{
    match x {
        Ok(Found { file, sheet }) => Numbers {
            refusal: 0,
            file: u64::from(file),
            place: sheet.place,
            size: sheet.size,
        },
        Err(Refused { file, fault }) => Numbers {
            refusal: u32::from(fault.refusal),
            file: u64::from(file),
            place: fault.place,
            size: 0,
        },
    }
}

// What one file's look finds, or is refused for.
#[tactic(auto, using(crate::proofs::Look::file_laws))]
fn find_in(file: File, bytes: &[u8], name: u8) -> Result<Option<Found>, Refused>
    ensures found { result ≡ found_in file (look_in name bytes.now) }
    ensures fits { IfOk result (λ o. IfSome o (λ x. (x.file ≡ file) × (x.sheet.place + x.sheet.size ≤ length bytes.now))) }
{
    let found = look_in(bytes, name).map_err(|fault| Refused { file, fault })?;
    Ok(found.map(|sheet| Found { file, sheet }))
}

// Where the sheet stands. Our file is not looked at where the customer's has the name or is malformed.
#[tactic(auto, unfolding(crate::specs::Lookup::lookup, crate::specs::Lookup::look_on))]
fn find(name: u8, customer: &[u8], house: &[u8]) -> Result<Found, Refused>
    ensures answer { answer_of result ≡ Rule.lookup name customer.now house.now }
    ensures fits { Fits (answer_of result).part customer.now house.now }
{
    if let Some(found) = find_in(File::Customers, customer, name)? {
        return Ok(found);
    }
    find_in(File::Ours, house, name)?.ok_or(Refused {
        file: File::Ours,
        fault: Fault {
            refusal: Refusal::NoSuchName,
            place: 0,
        },
    })
}

// Looks for a name in the customer's file, else in ours, and hands back the sheet: a part of the very slice that was lent, no copy.
// Refusal, file (0 the customer's, 1 ours) and place go to the answer. On any refusal the part is the empty start of ours.
pub fn lookup<'a>(name: u8, customer: &'a [u8], house: &'a [u8], answer: &mut [u64; 3]) -> &'a [u8]
    ensures part { IsPart (Rule.lookup name customer.now house.now).part result customer.entry house.entry }
    ensures answer_after { answer.new ≡ three_of (Rule.lookup name customer.now house.now) }
    ensures unchanged { Unchanged customer.now customer.now }
    ensures unchanged_2 { Unchanged house.now house.now }
{
    let x = find(name, customer, house);
    let numbers = numbers_of(x);
    *answer = [
        u64::from(numbers.refusal),
        numbers.file,
        numbers.place as u64,
    ];
    match x {
        Ok(found) => {
            let Sheet { place, size } = found.sheet;
            let file = match found.file {
                File::Customers => customer,
                File::Ours => house,
            };
            &file[place..place + size]
        }
        Err(_) => &house[..0],
    }
}

// The same for C and Rust, in numbers: the refusal is returned, and refusal, file, place and size go to the front of a lent array.
// The sheet is the file's bytes from the place on, so many; there are 0 where it is refused. An array of fewer than four numbers
// is left as it is.
#[unsafe(no_mangle)]
pub extern "C" fn zumbeiry_find(name: u8, customer: &[u8], house: &[u8], answer: &mut [u64]) -> u32
    ensures four_in { FourIn (Rule.lookup name customer.now house.now) answer.old answer.new result }
    ensures unchanged { Unchanged customer.now customer.now }
    ensures unchanged_2 { Unchanged house.now house.now }
{
    let x = numbers_of(find(name, customer, house));
    put_front(
        answer,
        [u64::from(x.refusal), x.file, x.place as u64, x.size as u64],
    );
    x.refusal
}
