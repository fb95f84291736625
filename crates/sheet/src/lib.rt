// The text format of a fold's inputs: SPECIFICATION 10.
#![tactic(auto)]

pub mod header;
pub mod reader;
