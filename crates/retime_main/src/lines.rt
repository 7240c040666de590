// What the program prints of a sheet, at the front of a buffer. A number becomes a `usize` by `as`: std has no `From` for it, and a
// `try_from` would give an error that cannot come.
ghost use Rattle.std.specs.Prelude.{◌+◌, ◌≤◌, length};
ghost use Rattle.rules.specs.Constants.{longest_sheet};
ghost use Rattle.label.specs.Shape.{answer_of};
ghost use Rattle.rules.specs.Product.{line};
ghost use Rattle.writing.specs.Out.{Writes, line_of};
ghost use Rattle.retime.specs.Shape.{change_of, eight};
ghost use Rattle.retime_main.specs.Line.{sheet_text, longest_printed, printed, longest_written, written, written_back};

use label::{Answer, check};
use retime::{Asked, Change, Changed, change_times, preview_times, take_back};
use writing::{put_bytes, put_five, put_line};

// Numbers that are lent to each search, and bytes for the copy: as many as the longest sheet has.
const LENT: usize = 12000;

const COPY: usize = 16384;

// Eight numbers, each of twenty digits and a byte behind them, and a sheet as long as may be read.
pub(crate) const LONGEST_WRITTEN: usize = 16553;

// The line of an answer's five numbers.
fn put_answer(out: &mut [u8], from: usize, a: Answer) -> usize
    ensures { Writes (line (answer_of a)) out.old from out.new result }
{
    put_five(out, from, a.refusal, a.place, a.steps, a.low, a.high)
}

// The two lines of a preview.
pub(crate) fn preview(sheet: &[u8], a: Asked, out: &mut [u8]) -> usize
    requires { longest_printed ≤ length out.old }
    ensures writes { Writes (printed sheet.now a.thread a.statement a.least a.greatest) out.old 0 out.new result }
    ensures upper_bound { result ≤ length out.new }
{
    let mut copy = [0u8; COPY];
    let mut work = [0i32; LENT];
    let now = check(sheet, &mut work);
    let then = preview_times(sheet, &mut copy, &mut work, a);
    let second = put_answer(out, 0, now);
    put_answer(out, second, then)
}

// The line of a change's eight numbers.
fn put_change(out: &mut [u8], c: Changed) -> usize
    ensures { Writes (line_of (eight c.refusal c.place (change_of c.change))) out.old 0 out.new result }
{
    put_line(
        out,
        0,
        &[
            c.refusal as usize,
            c.place,
            c.change.thread,
            c.change.statement,
            c.change.old_least as usize,
            c.change.old_greatest as usize,
            c.change.new_least as usize,
            c.change.new_greatest as usize,
        ],
    )
}

// The sheet that is to be written: none behind a refusal, a number of the answer as the call for C gives it.
fn put_sheet(out: &mut [u8], at: usize, refusal: u32, sheet: &[u8]) -> usize
    ensures { Writes (sheet_text refusal sheet.now) out.old at out.new result }
{
    if refusal != 0 {
        return at;
    }
    put_bytes(out, at, sheet)
}

// The line of a change, and the changed sheet.
pub(crate) fn change(sheet: &mut [u8], a: Asked, out: &mut [u8]) -> usize
    requires { (length sheet.old ≤ longest_sheet + 1) × (longest_written ≤ length out.old) }
    ensures writes { Writes (written sheet.old a.thread a.statement a.least a.greatest) out.old 0 out.new result }
    ensures upper_bound { result ≤ length out.new }
{
    let c = change_times(sheet, a);
    let end = put_change(out, c);
    put_sheet(out, end, c.refusal, sheet)
}

// The line of a change taken back, and the sheet as it was before it.
pub(crate) fn take_back_in(sheet: &mut [u8], c: Change, out: &mut [u8]) -> usize
    requires { (length sheet.old ≤ longest_sheet + 1) × (longest_written ≤ length out.old) }
    ensures writes { Writes (written_back sheet.old (change_of c)) out.old 0 out.new result }
    ensures upper_bound { result ≤ length out.new }
{
    let b = take_back(sheet, c);
    let end = put_line(out, 0, &[b.refusal as usize, b.place]);
    put_sheet(out, end, b.refusal, sheet)
}
