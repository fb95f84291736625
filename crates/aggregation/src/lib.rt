// The work of messages 3 and 4: the values of the second functions, the garbage h of the aggregate, and its commitment.
// SPECIFICATION 4.
#![tactic(auto)]

pub mod garbage;
mod products;
mod rows;
pub mod second;
