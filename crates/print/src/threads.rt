// Threads of a sheet that reads, line by line, by its index.
ghost use Rattle.std.specs.Prelude.{◌<◌};
ghost use Rattle.rules.specs.Encoding.{in_row};
ghost use Rattle.reader.specs.Facts.{program_in, thread_in};
ghost use Rattle.writing.specs.Out.{Writes};
ghost use Rattle.print.specs.Texts.{statement_text, thread_text, Indexes};

use crate::rows::{print_ranges, print_statement};
use reader::{Index, MOST_STATEMENTS, OPENING_SIZE};
use writing::put_bytes;

// The statements of thread t. It goes over k, since the index has the place of statement k of thread t by t and k. A loop over a slice of
// the places leaves eleven goals to answer by hand, this one six.
fn print_statements(s: &[u8], index: &Index, t: usize, out: &mut [u8], from: usize) -> usize
    requires { Indexes s.now index.now × (t < index.now.threads) }
    ensures { Writes (in_row statement_text (thread_in (program_in s.now) t).statements) out.old from out.new result }
{
    let mut at = from;
    for k in 0..usize::from(index.entries[t].statements) {
        let place = usize::from(index.places[t * MOST_STATEMENTS + k]);
        at = print_statement(s, place, out, at);
    }
    at
}

// Thread t.
fn print_thread(s: &[u8], index: &Index, t: usize, out: &mut [u8], from: usize) -> usize
    requires { Indexes s.now index.now × (t < index.now.threads) }
    ensures { Writes (thread_text (thread_in (program_in s.now) t)) out.old from out.new result }
{
    let entry = index.entries[t];
    let place = usize::from(entry.place) + OPENING_SIZE;
    let first = put_bytes(out, from, b"thread\n");
    let second = print_ranges(s, place, usize::from(entry.registers), b"reg ", out, first);
    print_statements(s, index, t, out, second)
}

// It goes over t, since what is said of a thread's text and of its places is said by t.
pub(crate) fn print_threads(s: &[u8], index: &Index, out: &mut [u8], from: usize) -> usize
    requires { Indexes s.now index.now }
    ensures { Writes (in_row thread_text (program_in s.now).threads) out.old from out.new result }
{
    let mut at = from;
    for t in 0..index.threads {
        at = print_thread(s, index, t, out, at);
    }
    at
}
