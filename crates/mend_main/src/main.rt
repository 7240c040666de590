// Reads a sheet from standard input. The mended sheet goes to standard output, nothing where it is refused. To standard error goes
// the line `refusal place written listed`, and behind it a line `kind offset` for each change. What goes to both, of the bytes
// that were read, is proved to be what the rule gives.
//
// A number becomes a `usize` by `as`: std has no `From` for it, and a `try_from` would give an error that cannot come.
#![tactic(auto)]

ghost use Rattle.std.specs.Prelude.{◌≡◌, [], ◌∷◌, ◌+◌, ◌*◌, ◌≤◌, length, take};
ghost use Rattle.rules.specs.Constants.{longest_sheet};
ghost use Rattle.writing.specs.Out.{Writes, line_of};
ghost use Rattle.mend.specs.Shape.{four};
ghost use Rattle.mend_main.specs.Text as Text;

use files::{Ends, MOST_OF_SHEET, put_ends, read_sheet};
use mend::{Mending, mend_sheet};

// What is lent: the longest sheet, and enough numbers for whatever can be changed in one.
const LENT_BYTES: usize = 16384;

const LENT_NUMBERS: usize = 8192;

// Four numbers of at most twenty digits, those of the list of at most ten, and one byte behind each.
const LONGEST_TEXT: usize = 90196;

// The line of the answer's four numbers, as the call for C gives them.
fn put_line(out: &mut [u8], m: Mending) -> usize
    ensures writes { Writes (line_of (four m.refusal m.place m.written m.listed)) out.old 0 out.new result }
    ensures upper_bound { 84 ≤ length out.old → result ≤ 84 }
{
    writing::put_line(out, 0, &[m.refusal as usize, m.place, m.written, m.listed])
}

// The line of a change: its kind and its offset, as the list for C has them.
fn put_change(out: &mut [u8], from: usize, kind: u32, place: u32) -> usize
    ensures writes { Writes (line_of (kind ∷ place ∷ [])) out.old from out.new result }
    ensures upper_bound { from + 22 ≤ length out.old → result ≤ from + 22 }
{
    writing::put_line(out, from, &[kind as usize, place as usize])
}

// A line for each change.
fn put_changes(out: &mut [u8], from: usize, changes: &[u32]) -> usize
    ensures writes { Writes (Text.lines changes.now) out.old from out.new result }
    ensures upper_bound { from + 11 * length changes.now ≤ length out.old → result ≤ from + 11 * length changes.now }
{
    let mut at = from;
    let (pairs, _) = changes.as_chunks::<2>();
    for &[kind, place] in pairs {
        at = put_change(out, at, kind, place);
    }
    at
}

// What goes to standard output stands at the front of the first buffer, what goes to standard error at the front of the second.
fn answer(sheet: &[u8], mended: &mut [u8], out: &mut [u8]) -> Ends
    requires { (length mended.old ≡ longest_sheet) × (Text.longest_text ≤ length out.old) }
    ensures mended_after { take result.written mended.new ≡ Text.written sheet.now }
    ensures written_in_bounds { result.written ≤ length mended.new }
    ensures writes { Writes (Text.said sheet.now) out.old 0 out.new result.said }
    ensures said_in_bounds { result.said ≤ length out.new }
{
    let mut changes = [0u32; LENT_NUMBERS];
    let m = mend_sheet(sheet, mended, &mut changes);
    let end = put_line(out, m);
    let said = put_changes(out, end, &changes[..m.listed]);
    Ends {
        written: m.written,
        said,
    }
}

fn main(rt: HostRuntime) {
    let mut sheet = [0u8; MOST_OF_SHEET];
    let n = read_sheet(&mut rt.stdin(), &mut sheet);
    let mut mended = [0u8; LENT_BYTES];
    let mut out = [0u8; LONGEST_TEXT];
    let ends = answer(&sheet[..n], &mut mended, &mut out);
    put_ends(rt, ends, &mended, &out);
}
