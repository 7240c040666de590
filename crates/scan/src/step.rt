// What a reader gives that writes what it reads.

// The place behind it in the text, the end of what was written, which kind of thing it is, and whether its numbers fit.
#[derive(Clone, Copy)]
pub struct Built<K> {
    pub place: usize,
    pub end: usize,
    pub kind: K,
    pub fits: bool,
}
