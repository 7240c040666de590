// Times of one statement of a sheet. SHEET is a file, the other words are numbers in decimal, thread and statement from 0:
//
//     SHEET THREAD STATEMENT LEAST GREATEST            what new times would give: two lines of five numbers, what the check gives
//                                                      now and what it would give
//     SHEET THREAD STATEMENT LEAST GREATEST write      the change: the line of its eight numbers (refusal, place, thread, statement,
//                                                      old least, old greatest, new least, new greatest), then the changed sheet
//     SHEET THREAD STATEMENT OLD_LEAST OLD_GREATEST NEW_LEAST NEW_GREATEST
//                                                      the change taken back: the line `refusal place`, then the sheet as it was
//
// Behind a refusal no sheet stands, since nothing is to be written. What is printed of the bytes that were read is proved to be what
// the rule gives.
#![tactic(auto)]

mod asked; // what the words ask for
mod lines; // what is printed

ghost use Rattle.std.specs.Prelude.{◌+◌, ◌≤◌, length};
ghost use Rattle.rules.specs.Constants.{longest_sheet};
ghost use Rattle.retime_main.specs.Line.{longest_written};

use crate::asked::{Asks, asks_given};
use crate::lines::{LONGEST_WRITTEN, change, preview, take_back_in};
use files::{MOST_OF_SHEET, opened, put_out, read_sheet, reads_on};
use std::fs::File;
use std::io::Print;

// What is printed of a sheet, at the front of a buffer, and where it ends.
fn answer(sheet: &mut [u8], asks: Asks, out: &mut [u8]) -> usize
    requires sheet_len { length sheet.old ≤ longest_sheet + 1 }
    requires room { longest_written ≤ length out.old }
    ensures { result ≤ length out.new }
{
    match asks {
        Asks::Preview(a) => preview(sheet, a, out),
        Asks::Change(a) => change(sheet, a, out),
        Asks::TakeBack(c) => take_back_in(sheet, c, out),
    }
}

fn put_answer(rt: HostRuntime, sheet: &mut [u8], asks: Asks)
    requires { length sheet.old ≤ longest_sheet + 1 }
{
    let mut out = [0u8; LONGEST_WRITTEN];
    let end = answer(sheet, asks, &mut out);
    let _ = put_out(rt, &out[..end]);
}

fn answer_file(rt: HostRuntime, from: &mut File, asks: Asks) {
    let mut sheet = [0u8; MOST_OF_SHEET];
    let n = read_sheet(from, &mut sheet);
    if reads_on(rt, from, b"SHEET") {
        put_answer(rt, &mut sheet[..n], asks);
    }
}

fn main(rt: HostRuntime) {
    let Some(asks) = asks_given(rt) else {
        let _ = rt.stderr().write_all(
            b"usage: retime_main SHEET THREAD STATEMENT LEAST GREATEST [write], or SHEET THREAD STATEMENT OLD_LEAST OLD_GREATEST NEW_LEAST NEW_GREATEST, numbers in decimal\n",
        );
        return;
    };
    let Some(mut file) = opened(rt, 1) else {
        return;
    };
    answer_file(rt, &mut file, asks);
}
