// C entry points, for callers in C and Rust: each calls one function of the libraries below. What such a function gives as a struct or a
// Result is stored through pointers, and a refusal is answered as its number.
#![tactic(auto)]

pub mod durations;
pub mod float_ground;
