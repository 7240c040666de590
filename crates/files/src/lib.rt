// A program's arguments, the files that they name, and bytes that are read and written as far as it goes. Why a file cannot be opened or
// read, or a text not be written, is told on standard error. No contract can say what the system answers: it is named as free.
#![tactic(auto)]

ghost use Rattle.std.specs.Prelude.{◌≡◌, ◌+◌, ◌≤◌, length, take};
ghost use Rattle.std.specs.Io.KnownBytes.{Consumes};
ghost use Rattle.rules.specs.Base.{Free};
ghost use Rattle.rules.specs.Constants.{longest_sheet};

use std::env::{Env, FillError};
use std::fs::File;
use std::io::{Print, Read};

mod told; // what is told on standard error

pub use told::{tell, tell_bytes};

// One byte more than a sheet may have, so that a longer one is seen to be too long.
pub const MOST_OF_SHEET: usize = 16385;

// Bytes of an argument at most.
pub const MOST_OF_WORD: usize = 4096;

// ---- the arguments

// An argument at the buffer's front, and how many bytes it has: none where it is missing, or has more than there is room for. A number
// and no `Option`: an empty word and none are refused alike.
pub fn word(rt: HostRuntime, i: usize, buffer: &mut [u8]) -> usize
    ensures in_bounds { result ≤ length buffer.new }
{
    rt.arg(i, buffer).unwrap_or(0)
}

// Whether there is an argument of this number; 0 is the program's own name.
fn has_word(rt: HostRuntime, i: usize) -> bool {
    let mut none = [0u8; 1];
    !matches!(rt.arg(i, &mut none), Err(FillError::NotPresent))
}

// How many arguments the program was started with, its own name among them.
pub fn word_count(rt: HostRuntime) -> usize
    ensures { Free result }
{
    (0..usize::MAX)
        .find(|i| !has_word(rt, *i))
        .unwrap_or(usize::MAX)
}

// ---- files

// The file of this path, opened; none, and the reason on standard error, if it cannot be.
fn opened_at(rt: HostRuntime, path: &[u8]) -> Option<File> {
    let Ok(text) = str::from_utf8(path) else {
        tell_bytes(rt, path, b"a path that is not UTF-8");
        return None;
    };
    match File::open(&rt, text) {
        Ok(file) => Some(file),
        Err(e) => {
            tell(rt, path, e);
            None
        }
    }
}

// The file that an argument names, opened; none, and the reason on standard error, if it cannot be.
pub fn opened(rt: HostRuntime, i: usize) -> Option<File>
    ensures { Free result }
{
    let mut path = [0u8; MOST_OF_WORD];
    match rt.arg(i, &mut path) {
        Ok(n) => opened_at(rt, &path[..n]),
        Err(FillError::TooLong) => {
            tell_bytes(rt, b"a path", b"File name too long");
            None
        }
        Err(FillError::NotPresent) => {
            tell_bytes(rt, b"a path", b"Invalid argument");
            None
        }
    }
}

// ---- reading

// How many bytes one read put at the buffer's front: none at the end, and where the read fails. A number and no `Option`: the end and a
// failure end the reading alike.
fn read_some<R: Read>(from: &mut R, buffer: &mut [u8]) -> usize
    ensures in_bounds { result ≤ length buffer.new }
    ensures bytes { Consumes (R.remaining from.old) (R.remaining from.new) (take result buffer.new) }
{
    from.read(buffer).unwrap_or(0)
}

// Reads until the buffer is full, the bytes end or a read fails, and gives how many bytes it put at the buffer's front: the next ones.
pub fn read_full<R: Read>(from: &mut R, buffer: &mut [u8]) -> usize
    ensures length_kept { length buffer.new ≡ length buffer.old }
    ensures in_bounds { result ≤ length buffer.new }
    ensures bytes { Consumes (R.remaining from.old) (R.remaining from.new) (take result buffer.new) }
{
    // Each step is as long as a read makes it; `read_exact` does not say how many bytes came before an end.
    let mut done: usize = 0;
    while done < buffer.len() {
        let n = read_some(from, &mut buffer[done..]);
        if n == 0 {
            return done;
        }
        done += n;
    }
    done
}

// Reads as far as there is room, and gives how many bytes it put at the array's front: the next ones.
pub fn read_array<const N: usize, R: Read>(from: &mut R, array: &mut [u8; N]) -> usize
    ensures array_len { (length array.new ≡ N) × (result ≤ N) }
    ensures bytes { Consumes (R.remaining from.old) (R.remaining from.new) (take result array.new) }
{
    read_full(from, array)
}

// Reads a sheet as far as there is room, and gives how many bytes it read; which ones is free.
pub fn read_sheet<R: Read>(from: &mut R, sheet: &mut [u8; MOST_OF_SHEET]) -> usize
    ensures sheet_len { (length sheet.new ≡ longest_sheet + 1) × (result ≤ longest_sheet + 1) }
    ensures free { Free sheet.new }
{
    read_full(from, sheet)
}

// Whether one more read goes without an error; if not, the reason is told under the name that the file is called by. `read_full` ends at
// an error as it does at the file's end: asked after it, this tells a file of which only a part was read.
pub fn reads_on<R: Read>(rt: HostRuntime, from: &mut R, called: &[u8]) -> bool
    ensures free { Free result }
    ensures called_value { called.now ≡ called.now }
{
    let mut more = [0u8; 1];
    match from.read(&mut more) {
        Ok(_) => true,
        Err(e) => {
            tell(rt, called, e);
            false
        }
    }
}

// ---- writing

// How many bytes at the fronts of two buffers go to standard output, and to standard error.
#[derive(Clone, Copy)]
pub struct Ends {
    pub written: usize,
    pub said: usize,
}

// Bytes to standard output, and whether they went there; if not, the reason is told.
pub fn put_out(rt: HostRuntime, bytes: &[u8]) -> bool
    ensures free { Free result }
    ensures bytes_value { bytes.now ≡ bytes.now }
{
    match rt.write_all(bytes) {
        Ok(()) => true,
        Err(e) => {
            tell(rt, b"standard output", e);
            false
        }
    }
}

// The front of the first buffer to standard output and, unless that fails, the front of the second to standard error.
pub fn put_ends(rt: HostRuntime, ends: Ends, out: &[u8], err: &[u8])
    requires out_in_bounds { ends.written ≤ length out.now }
    requires err_in_bounds { ends.said ≤ length err.now }
    ensures { Free result }
{
    if put_out(rt, &out[..ends.written]) {
        let _ = rt.stderr().write_all(&err[..ends.said]);
    }
}
