// The constraint of each check of the next instance, laid out on the parts of the cut opening: SPECIFICATION 8.
#![tactic(auto)]

pub mod cut;
pub mod spread;
pub mod writers;
