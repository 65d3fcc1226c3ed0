// Frames and replies of the program plot: a line becomes a frame, an answer its reply.
#![tactic(auto)]

pub mod frame;
pub mod kind;
pub mod reply;
