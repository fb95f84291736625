// Numbers modulo q = 2^32 - 99: centring, digits, ranges and squared lengths. SPECIFICATION 2.
#![tactic(auto)]

pub mod digits;
pub mod length;
pub mod modulus;
pub mod range;
