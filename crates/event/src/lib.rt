// The event of one thread of a state: the statement at which it stands is fetched, and the states that follow go on a stack in the lent
// buffer.
#![tactic(auto)]

pub mod plan; // what a search keeps of the index
pub mod fetch; // the statement at which a thread stands
pub mod stack; // the stack of states, and a new one on top of it
pub mod act; // the event of one thread
mod branching; // the event at an if
pub mod locking; // the event at a lock or an unlock
