// Fields, each read where it stands, in a sheet or in another file of fields: the place behind it, or its first fault; and what the
// field of a statement says.
#![tactic(auto)]

pub mod ticks; // ticks of a clock
pub mod outcome; // what a reader gives
pub mod tags; // the tags of fields
mod heads; // the head of a field: its tag and its length
pub mod fields; // a field of any tag, and the fields of tags 1, 3 and 4
mod ranges; // the fields of tags 2 and 5
mod codes; // the codes of statements
mod operands; // what stands behind the code of a statement
pub mod statements; // the field of tag 6
pub mod decoding; // a statement, by its place

pub use decoding::{Action, is_halt, statement_at};
pub use fields::{
    GREATEST_BUDGET, GREATEST_LIMIT, Header, any_field_end, byte_at, fixed_field_end, header_at,
    header_end, length_at, locks_end, open_end, whole_field_at,
};
pub use heads::has_head;
pub use operands::Names;
pub use outcome::{Counted, need};
pub use ranges::{RANGE_SIZE, VARIABLES_AT, read_variables, registers_end};
pub use statements::{statement_end, statement_here, times_fit};
pub use ticks::Time;
