// What the test programs over the layers share: the numbers and lists of a case, which is one line of a text, and results printed.
#![tactic(auto)]

pub mod corpus;
pub mod input;
pub mod lines;
pub mod lists;
pub mod numbers;
pub mod printing;
pub mod reading;
pub mod sums;
pub mod text;
