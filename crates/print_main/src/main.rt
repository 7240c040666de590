// Reads a sheet from standard input. Its text goes to standard output; where it is refused, nothing goes there, and the line
// `refusal place` goes to standard error. What goes to both, of the bytes that were read, is proved to be what the rule gives.
#![tactic(auto)]

ghost use Rattle.std.specs.Prelude.{◌≡◌, ◌≤◌, length, take};
ghost use Rattle.writing.specs.Out.{Writes, longest_refusal};
ghost use Rattle.print_main.specs.Told as Told;

use files::{Ends, MOST_OF_SHEET, put_ends, read_sheet};
use print::print_sheet;
use writing::{LONGEST_REFUSAL, put_refusal};

// What is lent: six bytes of text for each byte of the longest sheet.
const LENT_BYTES: usize = 98304;

// What goes to standard output stands at the front of the first buffer, what goes to standard error at the front of the second.
fn answer(sheet: &[u8], text: &mut [u8], out: &mut [u8]) -> Ends
    requires { (length text.old ≡ Told.lent_bytes) × (longest_refusal ≤ length out.old) }
    ensures text_after { take result.written text.new ≡ Told.written sheet.now }
    ensures written_in_bounds { result.written ≤ length text.new }
    ensures writes { Writes (Told.said sheet.now) out.old 0 out.new result.said }
    ensures said_in_bounds { result.said ≤ length out.new }
{
    let x = print_sheet(sheet, text);
    let said = put_refusal(out, x.refusal, x.place);
    Ends {
        written: x.written,
        said,
    }
}

fn main(rt: HostRuntime) {
    let mut sheet = [0u8; MOST_OF_SHEET];
    let n = read_sheet(&mut rt.stdin(), &mut sheet);
    let mut text = [0u8; LENT_BYTES];
    let mut out = [0u8; LONGEST_REFUSAL];
    let ends = answer(&sheet[..n], &mut text, &mut out);
    put_ends(rt, ends, &text, &out);
}
