// A sheet's text as fields: their bytes, their places and their numbers. SPECIFICATION 10.
#![tactic(auto)]

pub mod field;
pub mod sizes;
pub mod walk;
pub mod write;
