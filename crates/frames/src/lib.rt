// Lines of a whole input, however it is cut, and all their replies.
#![tactic(auto)]

mod line;
pub mod stream;
