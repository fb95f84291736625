// What the constraints of the next instance are made of: the lists that are formed once, and the blocks of coefficients. SPECIFICATION 8.
#![tactic(auto)]

pub mod blocks;
pub mod elements;
pub mod folded;
pub mod lists;
pub mod squares;
pub mod tables;
