// The source's spherical folder. Navigation on a sphere stands here; angles and arcs, means and walks in crates of their own.
#![tactic(auto)]

pub use arcs::Side;

pub mod interpolated;
pub mod sphere;

pub mod base {
    pub use arcs::base::{angle_radians_about, angle_radians_between, easting, side};
}

pub mod course {
    pub use chases::course::course;
}

pub mod great_circle {
    pub use arcs::great_circle::GreatCircle;
}

pub mod lent {
    pub use means::lent::mean_position_of;
}

pub mod mean {
    pub use means::{NoMean, mean_position, number_of, triangle_mean_position};
}

pub mod minor_arc {
    pub use arcs::minor_arc::MinorArc;
}

pub mod outcome {
    pub use walks::Outcome;
}

pub mod walk {
    pub use chases::{
        CPA_START, INTERCEPT_START, chase_new, chase_start, cpa_new, cpa_step, int_min_nr_rec,
        int_min_step, int_spd_nr_rec, int_spd_step, newton_raphson,
    };
    pub use walks::{Chase, Cpa, MOST_STEPS, Step, Walk};
}
