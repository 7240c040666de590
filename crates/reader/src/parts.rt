// The parts of a sheet before its threads: what each says, and the place behind it.
// Every function is given the whole sheet s and the place of its part in it. Why there are three: docs/DECISIONS.md, 32, names each.
#![tactic(auto, unfolding(crate::proofs::Opened::parts))]

ghost use Rattle.std.specs.Prelude.{◌≡◌};
ghost use Rattle.reader.specs.Walk.{header_part, locks_part, variables_part};

use field::{Header, byte_at, header_at, header_end, locks_end, read_variables};
use refusal::Fault;

// The header, with which a sheet starts.
pub(crate) fn header_part(s: &[u8], at: usize) -> Result<(Header, usize), Fault>
    ensures { result ≡ header_part s.now at }
{
    let end = header_end(s, at)?;
    Ok((header_at(s, at), end))
}

// How many locks there are.
pub(crate) fn locks_part(s: &[u8], at: usize) -> Result<(usize, usize), Fault>
    ensures { result ≡ locks_part s.now at }
{
    let end = locks_end(s, at)?;
    Ok((byte_at(s, at + 3), end))
}

// How many variables there are.
pub(crate) fn variables_part(s: &[u8], at: usize) -> Result<(usize, usize), Fault>
    ensures { result ≡ variables_part s.now at }
{
    let read = read_variables(s, at)?;
    Ok((read.count, read.end))
}
