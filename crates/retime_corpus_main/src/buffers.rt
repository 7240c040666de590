// Bytes of a buffer that are changed and read.
use files::read_full;
use std::io::Read;

// Another byte at this place, if there is one: never the same, and the same again where it is done twice.
pub(crate) fn turn(bytes: &mut [u8], at: usize) {
    if let Some(b) = bytes.get_mut(at) {
        *b = 255 - *b;
    }
}

// Reads the next n bytes to this place; none where there are fewer, or no room for them.
pub(crate) fn read_part<R: Read>(
    from: &mut R,
    bytes: &mut [u8],
    at: usize,
    n: usize,
) -> Option<()> {
    let part = bytes.get_mut(at..at.saturating_add(n))?;
    (read_full(from, part) == n).then_some(())
}
