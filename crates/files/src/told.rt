// What is told on standard error: a name, a colon and a reason. No contract can say what stands there: it is named as free.
ghost use Rattle.std.specs.Prelude.{◌≤◌, length};
ghost use Rattle.rules.specs.Base.{Free};

use std::io::{Error, Print, Write};

// The longest reason of the system with what is printed behind it.
const MOST_OF_REASON: usize = 320;

// What stands behind the system's reason where an error is printed.
const BEHIND: &[u8] = b" (os error ";

// A line of a name and a reason.
pub fn tell_bytes(rt: HostRuntime, what: &[u8], reason: &[u8])
    ensures { Free result }
{
    let out = rt.stderr();
    let _ = Print::write_all(&out, what);
    let _ = Print::write_all(&out, b": ");
    let _ = Print::write_all(&out, reason);
    let _ = Print::write_all(&out, b"\n");
}

// The error's reason at the buffer's front, as the system words it, without its number.
fn put_reason(e: Error, out: &mut [u8]) -> usize
    ensures { result ≤ length out.new }
{
    let room = out.len();
    let mut rest = &mut out[..];
    let _ = write!(rest, "{e}");
    room.saturating_sub(rest.len())
}

// How many bytes of it the system's words are.
fn words_in(text: &[u8]) -> usize
    ensures { result ≤ length text.now }
{
    text.windows(BEHIND.len())
        .position(|part| part == BEHIND)
        .unwrap_or(text.len())
}

// A line of a name and the system's reason for an error.
pub fn tell(rt: HostRuntime, what: &[u8], e: Error)
    ensures { Free result }
{
    let mut text = [0u8; MOST_OF_REASON];
    let n = put_reason(e, &mut text);
    let reason = &text[..n];
    let end = words_in(reason);
    tell_bytes(rt, what, &reason[..end]);
}
