// Vectors of three parts and matrices of three rows: the source's vec3.rs and mat33.rs.
#![tactic(auto)]

pub mod mat33;
pub mod vec3;
