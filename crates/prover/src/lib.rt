// The work of messages 1, 2 and 5, and the digits of pairs: SPECIFICATION 4.
#![tactic(auto)]

pub mod amortize;
pub mod commit;
pub mod garbage;
pub mod project;
