// What a frame makes of a session, and its reply.
#![tactic(auto)]

pub mod quick;
pub mod session;
