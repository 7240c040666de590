// The header of a sheet that reads, and all lines behind it, by its index. `as` where std has no `From` for it, and `try_from` would give
// an `Err` that cannot come.
ghost use Rattle.reader.specs.Facts.{program_in};
ghost use Rattle.writing.specs.Out.{Writes};
ghost use Rattle.printed.specs.Print.{print};
ghost use Rattle.print.specs.Texts.{head_text, header_of, Indexes};

use crate::actions::put_named;
use crate::rows::print_ranges;
use crate::threads::print_threads;
use field::VARIABLES_AT;
use reader::Index;
use writing::put;

// Limit, budget, label and locks.
fn print_head(index: &Index, out: &mut [u8]) -> usize
    ensures { Writes (head_text (header_of index.now) index.now.locks) out.old 0 out.new result }
{
    let first = put_named(out, 0, b"limit ", index.limit.0 as usize);
    let second = put_named(out, first, b"\nbudget ", index.budget as usize);
    let third = put_named(out, second, b"\nlabel ", index.label_low.0 as usize);
    let fourth = put_named(out, third, b"..", index.label_high.0 as usize);
    let fifth = put_named(out, fourth, b"\nlocks ", index.locks);
    put(out, fifth, b'\n')
}

// The text; its end is one past the buffer's where it does not fit.
pub(crate) fn print_program(sheet: &[u8], index: &Index, text: &mut [u8]) -> usize
    requires { Indexes sheet.now index.now }
    ensures { Writes (print (program_in sheet.now)) text.old 0 text.new result }
{
    let variables = print_head(index, text);
    let threads = print_ranges(
        sheet,
        VARIABLES_AT,
        index.variables,
        b"var ",
        text,
        variables,
    );
    print_threads(sheet, index, text, threads)
}
