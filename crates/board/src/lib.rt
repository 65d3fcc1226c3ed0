// The calls of a board.
#![tactic(auto)]

pub mod board;
pub mod glance;
