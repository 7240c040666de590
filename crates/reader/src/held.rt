// The reader that holds the sheet's bytes and its place in them, and the walk of a sheet by it.
// Functions over a reader are thin: each calls one that is given the bytes and the place, and hands the reader back moved on.
// Tests and loops stand in the functions that they call. The three methods on parts stay three: docs/DECISIONS.md, 32, names each.
#![tactic(auto, unfolding(crate::proofs::Opened::walk))]

ghost use Rattle.std.specs.Prelude.{◌≡◌, ◌≤◌, length};
ghost use Rattle.rules.specs.Format.{read_fields, read_threads};
ghost use Rattle.reader.specs.Index.{greatest_place, index_with, index_of};
ghost use Rattle.reader.specs.Walk.{header_part, locks_part, variables_part, read_on};

use crate::parts::{header_part, locks_part, variables_part};
use crate::{Index, indexed};
use field::Header;
use refusal::Fault;

#[derive(Clone, Copy)]
struct Reader<'a> {
    sheet: &'a [u8],
    at: usize,
}

impl<'a> Reader<'a> {
    fn header(self) -> Result<(Header, Reader<'a>), Fault>
        ensures { result ≡ read_on self.entry (header_part self.entry.sheet.now self.entry.at) }
    {
        let (header, at) = header_part(self.sheet, self.at)?;
        Ok((header, Reader { at, ..self }))
    }

    fn locks(self) -> Result<(usize, Reader<'a>), Fault>
        ensures { result ≡ read_on self.entry (locks_part self.entry.sheet.now self.entry.at) }
    {
        let (locks, at) = locks_part(self.sheet, self.at)?;
        Ok((locks, Reader { at, ..self }))
    }

    fn variables(self) -> Result<(usize, Reader<'a>), Fault>
        ensures { result ≡ read_on self.entry (variables_part self.entry.sheet.now self.entry.at) }
    {
        let (variables, at) = variables_part(self.sheet, self.at)?;
        Ok((variables, Reader { at, ..self }))
    }

    // The threads are the rest of the sheet: with them the index is whole. The bound on the sheet is asked here and is no ghost field:
    // the functions on slice and place that DECISIONS 32 names would ask it still, and the other three methods need none.
    fn threads(self, header: Header, locks: usize, variables: usize) -> Result<Index, Fault>
        requires { length self.sheet.now ≤ greatest_place }
        ensures { result ≡ index_with header locks variables (read_threads variables locks self.entry.sheet.now self.entry.at) }
    {
        indexed(self.sheet, self.at, header, locks, variables)
    }
}

// Reads a sheet whose places an index can hold, from its start.
pub(crate) fn walk_sheet(sheet: &[u8]) -> Result<Index, Fault>
    requires { length sheet.now ≤ greatest_place }
    ensures { result ≡ index_of (read_fields sheet.now) }
{
    let (header, rest) = Reader { sheet, at: 0 }.header()?;
    let (locks, rest) = rest.locks()?;
    let (variables, rest) = rest.variables()?;
    rest.threads(header, locks, variables)
}
