// Words and numbers of a text (02, ticket 2), read from a place in it, and the bytes that are written of them. The text's bytes from
// the place on are what the rules read; every function wants the place in the text. A reader gives the number that stands for what
// it read and the place behind it; one of a word or of a line's end gives the place alone. Its error is the place of the first byte
// that cannot go on.
#![tactic(auto)]

pub mod step; // what a reader gives that writes what it reads
pub mod words; // spaces, numbers and words
pub mod names; // names, words of letters, values and a line's end
pub mod output; // bytes that are written
pub mod waiting; // codes that go before what is written

pub use names::{line_end_at, name_at, value_at, word_only_at};
pub use output::{insert, past, put, put_bytes, put_constant, put_four, put_two};
pub use step::Built;
pub use waiting::{MOST_KEPT, Waiting};
pub use words::{
    TOO_BIG, digits_at, is_digit, negated, number_at, positive, spaces_end, symbol_at,
};
