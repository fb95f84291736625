// Checks 1 to 9 of the verdict, each a test: SPECIFICATION 6. An opening's z has tz digits.
#![tactic(auto)]

pub mod amortized;
mod indices;
pub mod linear;
pub mod norms;
pub mod outer;
pub mod recomposed;
pub mod relation;
pub mod terms;
