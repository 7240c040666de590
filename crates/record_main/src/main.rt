// Follows a record through its sheet: SHEET RECORD, two files. Prints the line `number file place finished tick`: the refusal, 0 where
// the record is a run of the sheet that leaves a state; the file at fault (0 the sheet, 1 the record) and the place in it; whether
// the run is finished (1) or not (0), and its last tick. What is printed of the bytes that were read is proved to be what the rule
// gives.
//
// A number becomes a `usize` by `as`: std has no `From` for it, and a `try_from` would give an error that cannot come.
#![tactic(auto)]

ghost use Rattle.std.specs.Prelude.{◌≡◌, ◌+◌, ◌≤◌, length};
ghost use Rattle.writing.specs.Out.{Writes};
ghost use Rattle.recorded.specs.Follow.{longest_record};
ghost use Rattle.record_main.specs.Line.{longest_line, printed};

use files::{MOST_OF_SHEET, opened, put_out, read_full, read_sheet, reads_on, word_count};
use record::{Followed, follow};
use std::fs::File;
use std::io::Print;
use writing::put_line;

// One byte more than a record may have, so that a longer one is seen to be too long, and the rule gives it its number.
const MOST_OF_RECORD: usize = 65537;

// The longest line: ten digits for the refusal and for the tick, twenty for the place, one for the other two, and one byte behind each.
const LONGEST_LINE: usize = 47;

// ---- the line

// What is printed of a sheet and a record, at the buffer's front: the line of the answer's five numbers, as the call for C gives them.
fn answer(sheet: &[u8], recorded: &[u8], out: &mut [u8]) -> usize
    requires { longest_line ≤ length out.old }
    ensures writes { Writes (printed sheet.now recorded.now) out.old 0 out.new result }
    ensures upper_bound { result ≤ length out.new }
{
    let a = follow(sheet, recorded);
    put_line(
        out,
        0,
        &[
            a.refusal as usize,
            u64::from(a.file) as usize,
            a.place,
            usize::from(a.finished),
            a.tick as usize,
        ],
    )
}

fn put_answer(rt: HostRuntime, sheet: &[u8], recorded: &[u8]) {
    let mut out = [0u8; LONGEST_LINE];
    let end = answer(sheet, recorded, &mut out);
    let _ = put_out(rt, &out[..end]);
}

// ---- the files

// Reads a record as far as there is room, and gives how many bytes it read: here, as the edit `fewer_bytes_read` changes this program's own
// number of them.
fn read_record(from: &mut File, recorded: &mut [u8; MOST_OF_RECORD]) -> usize
    ensures { (length recorded.new ≡ longest_record + 1) × (result ≤ longest_record + 1) }
{
    read_full(from, recorded)
}

fn follow_files(rt: HostRuntime, one: &mut File, two: &mut File) {
    let mut sheet = [0u8; MOST_OF_SHEET];
    let n = read_sheet(one, &mut sheet);
    if !reads_on(rt, one, b"SHEET") {
        return;
    }
    let mut recorded = [0u8; MOST_OF_RECORD];
    let m = read_record(two, &mut recorded);
    if !reads_on(rt, two, b"RECORD") {
        return;
    }
    put_answer(rt, &sheet[..n], &recorded[..m]);
}

fn main(rt: HostRuntime) {
    if word_count(rt) != 3 {
        let _ = rt.stderr().write_all(b"usage: record_main SHEET RECORD\n");
        return;
    }
    let Some(mut one) = opened(rt, 1) else {
        return;
    };
    let Some(mut two) = opened(rt, 2) else {
        return;
    };
    follow_files(rt, &mut one, &mut two);
}
