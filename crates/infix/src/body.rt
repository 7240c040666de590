// What each step of printing an expression has at hand.
ghost use Rattle.std.specs.Prelude.{◌≤◌, length};

// The sheet's bytes, and the end of the body in which the expression stands.
#[derive(Clone, Copy)]
pub(crate) struct Body<'a> {
    pub s: &'a [u8],
    pub end: usize,
    ghost inside: { end ≤ length s.now },
}
