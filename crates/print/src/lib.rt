// One printed form for each sheet (02, ticket 4): the text of a sheet, in a lent buffer. `as` where std has no `From` for it, and
// `try_from` would give an `Err` that cannot come.
#![tactic(auto)]

mod actions; // what a statement does
mod rows; // the lines of statements and of ranges
mod threads; // threads, line by line
mod whole; // the header, and all lines behind it
mod output; // what the call gives, and a refusal

ghost use Rattle.std.specs.Prelude.{◌≡◌, length};
ghost use Rattle.rules.specs.Demands.{Unchanged};
ghost use Rattle.reader.specs.Facts.{program_in};
ghost use Rattle.printed.specs.Print as Rule;
ghost use Rattle.print.specs.Texts.{Indexes};
ghost use Rattle.print.specs.Shape.{printing_of, PrintsWell, ThreeIn, Leaves};

use crate::output::refuse;
use crate::whole::print_program;
pub use output::Printing;
use reader::{Index, read_sheet};
use refusal::{Fault, Refusal};
use writing::{put_front, put_zeros};

// The text of a sheet that reads, with zeros behind it; all zeros where it does not fit.
fn print_read(sheet: &[u8], index: &Index, text: &mut [u8]) -> Printing
    requires { Indexes sheet.now index.now }
    ensures { printing_of result text.new ≡ Rule.written_into (length text.old) (Rule.print (program_in sheet.now)) }
{
    let written = print_program(sheet, index, text);
    if text.len() < written {
        return refuse(
            text,
            Fault {
                refusal: Refusal::OutputFull,
                place: 0,
            },
        );
    }
    put_zeros(text, written);
    Printing {
        refusal: 0,
        place: 0,
        written,
    }
}

// Prints a sheet into the lent buffer, with zeros behind its text; all zeros where it is refused.
pub fn print_sheet(sheet: &[u8], text: &mut [u8]) -> Printing
    ensures text_after { printing_of result text.new ≡ Rule.print_sheet (length text.old) sheet.now }
    ensures prints_well { PrintsWell (length text.old) sheet.now }
    ensures unchanged { Unchanged sheet.now sheet.now }
{
    match read_sheet(sheet) {
        Ok(index) => print_read(sheet, &index, text),
        Err(fault) => refuse(text, fault),
    }
}

// The same for callers in C and in Rust: the answer's three numbers (refusal, place, bytes written) go to the front of a lent array, and
// the refusal is returned. An array of fewer than three numbers is left as it is; the sheet is printed all the same.
#[unsafe(no_mangle)]
pub extern "C" fn zumbeiry_print(sheet: &[u8], text: &mut [u8], answer: &mut [u64]) -> u32
    ensures three_in { ThreeIn (Rule.print_sheet (length text.old) sheet.now) answer.old answer.new result }
    ensures leaves { Leaves (Rule.print_sheet (length text.old) sheet.now) text.new }
    ensures prints_well { PrintsWell (length text.old) sheet.now }
    ensures unchanged { Unchanged sheet.now sheet.now }
{
    let x = print_sheet(sheet, text);
    put_front(
        answer,
        [u64::from(x.refusal), x.place as u64, x.written as u64],
    );
    x.refusal
}
