// The tests of SPECIFICATION 7 on sizes, rows 1 to 6 and 11, one by one, in groups and for each call; and the lengths that sizes give, with the test of one.
#![tactic(auto)]

pub mod bounds;
pub mod groups;
pub mod next;
pub mod part;
pub mod rows;
pub mod sizes;
