// Axes of any kind: what is asked of one, what it answers, and layers over it.
#![tactic(auto)]

pub mod hint;
pub mod key_points;
pub mod keys;
pub mod layered;
pub mod limits;
pub mod part;
pub mod points;
pub mod ranged;
pub mod turned;
