// The lines of statements and of ranges, each with its newline. `as` where std has no `From` for it, and `try_from` would give an `Err`
// that cannot come.
ghost use Rattle.std.specs.Prelude.{◌≡◌, ◌+◌, ◌*◌, ◌≤◌, length};
ghost use Rattle.rules.specs.Program as R;
ghost use Rattle.rules.specs.Format.{Names};
ghost use Rattle.rules.specs.Encoding.{in_row};
ghost use Rattle.field.specs.Decoded.{body_end};
ghost use Rattle.reader.specs.Facts.{range_at, ranges, StatementFacts};
ghost use Rattle.writing.specs.Out.{Writes};
ghost use Rattle.printed.specs.Print.{print_times};
ghost use Rattle.print.specs.Texts.{statement_text, range_text};

use crate::actions::{print_action, put_named};
use expression::num32_at;
use field::{RANGE_SIZE, is_halt, statement_at};
use infix::put_value;
use writing::{put, put_bytes, put_decimal};

// A statement's times; halt has none. The rule's `print_times` takes the same three.
fn print_times(halts: bool, least: usize, greatest: usize, out: &mut [u8], from: usize) -> usize
    ensures { Writes (print_times halts least greatest) out.old from out.new result }
{
    if halts {
        return from;
    }
    let first = put_decimal(out, from, least);
    let second = put_named(out, first, b"..", greatest);
    put(out, second, b' ')
}

// The line of the statement whose field stands at a place.
pub(crate) fn print_statement(s: &[u8], place: usize, out: &mut [u8], from: usize) -> usize
    requires { (place + 8 ≤ length s.now) × (body_end s.now place ≤ length s.now) }
    ensures { (ns : Names) (x : R.Statement) → place ≡ x.place → StatementFacts ns s.now x
        → Writes (statement_text x) out.old from out.new result }
{
    let x = statement_at(s, place);
    let action = x.action;
    let halts = is_halt(action);
    let first = print_times(halts, x.least.0 as usize, x.greatest.0 as usize, out, from);
    let second = print_action(s, action, out, first);
    put(out, second, b'\n')
}

// The line of the range whose field stands at p, behind its word.
fn print_range(s: &[u8], p: usize, word: &[u8], out: &mut [u8], from: usize) -> usize
    requires { p + 11 ≤ length s.now }
    ensures { Writes (range_text word.now (range_at s.now p)) out.old from out.new result }
{
    let low = num32_at(s, p + 3);
    let high = num32_at(s, p + 7);
    let first = put_bytes(out, from, word);
    let second = put_value(out, first, low);
    let third = put_bytes(out, second, b"..");
    let fourth = put_value(out, third, high);
    put(out, fourth, b'\n')
}

// A line for each of n ranges, one behind the other. Ranges are bytes of the sheet: no slice of ranges is there to go over.
pub(crate) fn print_ranges(
    s: &[u8],
    place: usize,
    n: usize,
    word: &[u8],
    out: &mut [u8],
    from: usize,
) -> usize
    requires { place + 11 * n ≤ length s.now }
    ensures { Writes (in_row (range_text word.now) (ranges s.now place n)) out.old from out.new result }
{
    let mut at = from;
    for i in 0..n {
        at = print_range(s, place + RANGE_SIZE * i, word, out, at);
    }
    at
}
