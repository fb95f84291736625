// The entries of the second and of the aggregated functions, formed as they are used: SPECIFICATION 4.3 and 4.4.
#![tactic(auto)]

pub mod aggregated;
pub mod phi;
pub mod projected_rows;
pub mod row_groups;
pub mod second;
