// Arithmetic in R = Z_q[X]/(X^d+1), q = 2^32 - 99: SPECIFICATION 2.
#![tactic(auto)]

pub mod coefficients;
pub mod constants;
pub mod element;
pub mod product;
mod short;
mod table;
