// The tags of a sheet's fields: bytes and no enum, as a function on a field of any tag (`fixed_field_end`) takes those of other files too.

pub const HEADER: u8 = 1;

pub const VARIABLE: u8 = 2;

pub const LOCKS: u8 = 3;

// The field that opens a thread.
pub const THREAD: u8 = 4;

pub const REGISTER: u8 = 5;

pub const STATEMENT: u8 = 6;
