// Reads sheets from standard input, each behind its length in two bytes, and writes a line for each: its refusal and place,
// and where these are 0 the numbers of its index, an entry for each thread, and each statement as it decodes at its place.
//
// A number becomes a `usize` by `as`: std has no `From` for it, and a `try_from` would give an error that cannot come.
#![tactic(auto)]

use field::{Action, statement_at};
use files::read_full;
use reader::threads::ThreadEntry;
use reader::{MOST_STATEMENTS, read_sheet};
use std::io::Print;

const MOST_CASES: usize = 65536;

// As many bytes as a length of two bytes may say, and one.
const ROOM: usize = 65536;

fn put(rt: HostRuntime, numbers: &[usize]) {
    for n in numbers {
        let _ = print!(rt; "{n} ");
    }
}

fn put_action(rt: HostRuntime, a: Action) {
    match a {
        Action::Halt => put(rt, &[0]),
        Action::Skip => put(rt, &[1]),
        Action::Assign { register, at, end } => put(rt, &[2, register, at, end]),
        Action::Branch { target, at, end } => put(rt, &[3, target, at, end]),
        Action::Store { register, variable } => put(rt, &[4, register, variable]),
        Action::Load { register, variable } => put(rt, &[5, register, variable]),
        Action::Unlock(lock) => put(rt, &[6, lock]),
        Action::Lock(lock) => put(rt, &[7, lock]),
    }
}

fn put_statement(rt: HostRuntime, sheet: &[u8], place: u16) {
    let at = usize::from(place);
    if at + 8 <= sheet.len() {
        let x = statement_at(sheet, at);
        put(rt, &[at, x.least.0 as usize, x.greatest.0 as usize]);
        put_action(rt, x.action);
    }
}

fn put_thread(rt: HostRuntime, sheet: &[u8], entry: ThreadEntry, places: &[u16]) {
    let n = usize::from(entry.statements);
    put(
        rt,
        &[usize::from(entry.place), usize::from(entry.registers), n],
    );
    for place in places.iter().take(n) {
        put_statement(rt, sheet, *place);
    }
}

fn put_sheet(rt: HostRuntime, sheet: &[u8]) {
    match read_sheet(sheet) {
        Err(fault) => {
            let refusal = u32::from(fault.refusal) as usize;
            put(rt, &[refusal, fault.place, 0, 0, 0, 0, 0, 0, 0]);
        }
        Ok(x) => {
            put(rt, &[0, 0, x.limit.0 as usize, x.budget as usize]);
            put(rt, &[x.label_low.0 as usize, x.label_high.0 as usize]);
            put(rt, &[x.locks, x.variables, x.threads]);
            let rows = x.places.chunks_exact(MOST_STATEMENTS);
            for (entry, places) in x.entries.iter().zip(rows).take(x.threads) {
                put_thread(rt, sheet, *entry, places);
            }
        }
    }
    let _ = println!(rt);
}

// The next sheet, in the buffer's front; none where there is no whole one.
fn next_sheet<'a>(rt: HostRuntime, buffer: &'a mut [u8; ROOM]) -> Option<&'a [u8]> {
    let mut length = [0u8; 2];
    if read_full(&mut rt.stdin(), &mut length) < length.len() {
        return None;
    }
    let sheet = &mut buffer[..usize::from(u16::from_be_bytes(length))];
    if read_full(&mut rt.stdin(), sheet) < sheet.len() {
        return None;
    }
    Some(sheet)
}

fn main(rt: HostRuntime) {
    let mut buffer = [0u8; ROOM];
    for _ in 0..MOST_CASES {
        let Some(sheet) = next_sheet(rt, &mut buffer) else {
            return;
        };
        put_sheet(rt, sheet);
    }
}
