// The lines of a text (02, ticket 2): each is read from its place in the text, and its field is written at a place in the output. Every
// function wants places in the text and places of the output up to 65,536; what has no room is not written.
//
// A reader gives what it read, or the place of the first byte that cannot go on. Where it stops, nothing is said of the output.
#![tactic(auto)]

pub mod ranges; // one end or two, and lines of a word and such numbers
pub mod fields; // bytes of fields
mod registers; // the registers of a thread, counted ahead
mod actions; // what a statement does
mod timed; // a statement with its times
pub mod line; // one line

pub use line::{Due, line_at};
