// Looks for a sheet by its name: NAME HIS OURS, a number from 0 to 255 and two files. The sheet's bytes go to standard output. Where
// the lookup is refused, nothing goes there, and the line `number file place` (file 0 the customer's, 1 ours) goes to standard error.
// What goes to both, of the bytes that were read, is proved to be what the rule gives.
//
// A number becomes a `usize` by `as`: std has no `From` for it, and a `try_from` would give an error that cannot come.
#![tactic(auto)]

ghost use Rattle.std.specs.Prelude.{◌≡◌, true, ◌+◌, ◌≤◌, length};
ghost use Rattle.writing.specs.Out.{Writes};
ghost use Rattle.shelf_main.specs.Text.{longest_file, longest_line, name_in, line_unless_found, written, said};

use digits::number_in;
use files::{MOST_OF_WORD, opened, put_out, read_array, reads_on, tell_bytes, word, word_count};
use shelf::lookup;
use std::fs::File;
use std::io::Print;

// One byte more than the longest file that is looked into, so that a longer one is seen to be too long.
const MOST_BYTES: usize = 1000001;

// The longest line: twenty digits for each number, and one byte behind each.
const LONGEST_LINE: usize = 63;

// ---- the name

// The name that a word writes in decimal: a number that one byte holds.
#[tactic(auto, unfolding(crate::specs::Text::name_in, crate::specs::Text::name_of))]
fn name_in(word: &[u8]) -> Option<u8>
    ensures { result ≡ name_in word.now }
{
    u8::try_from(number_in(word)?).ok()
}

fn name_given(rt: HostRuntime) -> Option<u8> {
    let mut given = [0u8; MOST_OF_WORD];
    let n = word(rt, 1, &mut given);
    name_in(&given[..n])
}

// ---- the answer

// The line of a refusal at the buffer's front; nothing where the sheet is found. The numbers are the answer's, as the call for C gives
// them.
#[tactic(auto, unfolding(crate::proofs::Laws::said_line))]
fn put_line(out: &mut [u8], refusal: u64, file: u64, place: u64) -> usize
    requires { longest_line ≤ length out.old }
    ensures writes { Writes (line_unless_found refusal file place) out.old 0 out.new result }
    ensures upper_bound { result ≤ length out.new }
{
    if refusal == 0 {
        return 0;
    }
    writing::put_line(out, 0, &[refusal as usize, file as usize, place as usize])
}

// What goes to standard output is returned, and what goes to standard error stands at the buffer's front, up to the place behind it.
#[tactic(auto, unfolding(crate::specs::Text::written, crate::specs::Text::said))]
fn answer<'a>(name: u8, customer: &'a [u8], house: &'a [u8], out: &mut [u8]) -> (&'a [u8], usize)
    requires { longest_line ≤ length out.old }
    ensures sheet { result.0.now ≡ written name customer.now house.now }
    ensures writes { Writes (said name customer.now house.now) out.old 0 out.new result.1 }
    ensures end_in_bounds { result.1 ≤ length out.new }
{
    let mut numbers = [0u64; 3];
    let sheet = lookup(name, customer, house, &mut numbers);
    let end = put_line(out, numbers[0], numbers[1], numbers[2]);
    (sheet, end)
}

fn put_answer(rt: HostRuntime, name: u8, customer: &[u8], house: &[u8]) {
    let mut out = [0u8; LONGEST_LINE];
    let (sheet, end) = answer(name, customer, house, &mut out);
    let _ = put_out(rt, sheet);
    let _ = rt.stderr().write_all(&out[..end]);
}

// ---- the files

// Whether n bytes are the whole file: it is not longer than is looked into, and the reading did not end in an error.
fn is_whole(rt: HostRuntime, from: &mut File, n: usize, called: &[u8]) -> bool
    requires { n ≤ longest_file + 1 }
    ensures { result ≡ true → n ≤ longest_file }
{
    if n == MOST_BYTES {
        tell_bytes(rt, called, b"more than 1,000,000 bytes are not looked into");
        return false;
    }
    reads_on(rt, from, called)
}

fn look(rt: HostRuntime, name: u8, one: &mut File, two: &mut File) {
    let mut customer = [0u8; MOST_BYTES];
    let n = read_array(one, &mut customer);
    if !is_whole(rt, one, n, b"HIS") {
        return;
    }
    let mut house = [0u8; MOST_BYTES];
    let m = read_array(two, &mut house);
    if !is_whole(rt, two, m, b"OURS") {
        return;
    }
    put_answer(rt, name, &customer[..n], &house[..m]);
}

fn main(rt: HostRuntime) {
    if word_count(rt) != 4 {
        let _ = rt.stderr().write_all(b"usage: shelf_main NAME HIS OURS\n");
        return;
    }
    let Some(name) = name_given(rt) else {
        let _ = rt
            .stderr()
            .write_all(b"a name is a number from 0 to 255, in decimal\n");
        return;
    };
    let Some(mut one) = opened(rt, 2) else {
        return;
    };
    let Some(mut two) = opened(rt, 3) else {
        return;
    };
    look(rt, name, &mut one, &mut two);
}
