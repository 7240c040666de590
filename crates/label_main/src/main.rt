// Reads a sheet from standard input, lends 12,000 numbers, and prints refusal, place, steps, low and high. What it prints of the
// bytes that were read is proved to be what the rules print of them.
#![tactic(auto)]

ghost use Rattle.std.specs.Prelude.{◌≡◌, ◌+◌, ◌≤◌, length};
ghost use Rattle.rules.specs.Constants.{longest_sheet};
ghost use Rattle.rules.specs.Product as P;
ghost use Rattle.rules.specs.Product.{line};
ghost use Rattle.label.specs.Shape.{answer_of};
ghost use Rattle.label_main.specs.Line.{Holds};

use files::read_full;
use label::{Answer, check};
use std::io::Print;
use writing::put_five;

// One byte more than a sheet may have, so that a longer one is seen to be too long.
const MOST_BYTES: usize = 16385;

const LENT: usize = 12000;

// The longest line: ten digits for each number of 32 bits, twenty for the place, and one byte behind each of the five.
const LONGEST_LINE: usize = 65;

// A text: the first so many of the bytes. With no heap it is an array and a length, and no slice alone: `Holds` tells the zeros behind.
#[derive(Clone, Copy)]
struct Line {
    bytes: [u8; LONGEST_LINE],
    length: usize,
}

fn line_of(a: Answer) -> Line
    ensures { Holds (line (answer_of a)) result }
{
    let mut bytes = [0u8; LONGEST_LINE];
    let length = put_five(&mut bytes, 0, a.refusal, a.place, a.steps, a.low, a.high);
    Line { bytes, length }
}

// What is printed of a sheet.
fn printed(sheet: &[u8]) -> Line
    ensures { Holds (P.printed sheet.now) result }
{
    let mut work = [0i32; LENT];
    line_of(check(sheet, &mut work))
}

// Reads standard input as far as there is room, and gives how many bytes it read. It is not `files::read_sheet`, since the edit
// fewer_bytes_read stands on this program's own constant.
fn read_sheet(rt: HostRuntime, sheet: &mut [u8; MOST_BYTES]) -> usize
    ensures { (length sheet.new ≡ longest_sheet + 1) × (result ≤ longest_sheet + 1) }
{
    read_full(&mut rt.stdin(), sheet)
}

fn main(rt: HostRuntime) {
    let mut sheet = [0u8; MOST_BYTES];
    let n = read_sheet(rt, &mut sheet);
    let line = printed(&sheet[..n]);
    let _ = rt.write_all(&line.bytes[..line.length]);
}
