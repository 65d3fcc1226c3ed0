// Numbers, units, vectors, positions and vehicles: a module to a file of the source.
#![tactic(auto)]

pub mod angle;
pub mod length;
pub mod numbers;
pub mod positions;
pub mod speed;
pub mod vehicle;

pub mod mat33 {
    pub use vectors::mat33::Mat33;
}

pub mod vec3 {
    pub use vectors::vec3::Vec3;
}
