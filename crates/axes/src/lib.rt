// The kinds of axes: whole numbers, stations, and either of them.
#![tactic(auto)]

pub mod kinds;
mod multiples;
mod pixels;
mod rows;
pub mod samples;
pub mod station;
pub mod stations;
pub mod whole;
