// The prover's work at the bare level: t, φ and the turns. SPECIFICATION 14.4 and 14.5.
#![tactic(auto)]

pub mod commit;
pub mod phi;
pub mod turn;
