// Reads a text from standard input. The sheet that it makes goes to standard output; where it is refused, nothing goes there, and the
// line `refusal place` goes to standard error. What goes to both, of the bytes that were read, is proved to be what the rule gives.
#![tactic(auto)]

ghost use Rattle.std.specs.Prelude.{◌≡◌, ◌≤◌, length, take};
ghost use Rattle.rules.specs.Constants.{longest_sheet};
ghost use Rattle.writing.specs.Out.{Writes, longest_refusal};
ghost use Rattle.text_main.specs.Told as Told;

use convert::convert_text;
use files::{Ends, put_ends, read_array};
use std::io::Print;
use writing::{LONGEST_REFUSAL, put_refusal};

// What a text may have here, and one byte more, so that a longer one is seen to be longer.
const MOST_TEXT: usize = 1048576;

const READ_TEXT: usize = MOST_TEXT + 1;

// What is lent: the longest sheet.
const LENT_BYTES: usize = 16384;

// What goes to standard output stands at the front of the first buffer, what goes to standard error at the front of the second.
fn answer(text: &[u8], sheet: &mut [u8], out: &mut [u8]) -> Ends
    requires { (length sheet.old ≡ longest_sheet) × (longest_refusal ≤ length out.old) }
    ensures sheet_after { take result.written sheet.new ≡ Told.written text.now }
    ensures written_in_bounds { result.written ≤ length sheet.new }
    ensures writes { Writes (Told.said text.now) out.old 0 out.new result.said }
    ensures said_in_bounds { result.said ≤ length out.new }
{
    let x = convert_text(text, sheet);
    let said = put_refusal(out, x.refusal, x.place);
    Ends {
        written: x.written,
        said,
    }
}

fn main(rt: HostRuntime) {
    let mut text = [0u8; READ_TEXT];
    let n = read_array(&mut rt.stdin(), &mut text);
    if MOST_TEXT < n {
        let _ = rt.stderr().write_all(b"text: more than 1048576 bytes\n");
        return;
    }
    let mut sheet = [0u8; LENT_BYTES];
    let mut out = [0u8; LONGEST_REFUSAL];
    let ends = answer(&text[..n], &mut sheet, &mut out);
    put_ends(rt, ends, &sheet, &out);
}
