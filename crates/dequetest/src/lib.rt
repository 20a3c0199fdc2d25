// The test of a record of DFDeques, check 32 (N13), on lent memory. Every call is total, and what it answers equals a definition.
#![tactic(auto)]

mod blank;
mod lines;
mod open;
mod sound;

pub use blank::deque_blank_in;
pub use open::deque_open_in;
pub use sound::deque_test_in;
