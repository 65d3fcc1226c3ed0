// The plain board, to be believed: its types here, its definitions in specs, what is proved of it in proofs. The code stands in the crates above.
#![tactic(auto)]

pub mod asking;
pub mod call;
pub mod line;
pub mod state;
pub mod targets;
