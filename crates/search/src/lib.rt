// The search over states: every order of the threads is followed over intervals, on a stack of states in the lent buffer.
#![tactic(auto)]

mod taken; // a state that was taken from the stack
mod survey; // the threads of a state at the beginning of a turn
mod turn; // all events of a state
pub mod run; // the loop over the stack
pub mod whole; // the search of a sheet, from its bytes

pub use run::{Outcome, Window};
pub use whole::{Label, Searched, search_sheet};
