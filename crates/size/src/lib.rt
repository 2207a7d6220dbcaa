// Sizes in pixels, whatever they are given as, and the one list of refusals.
#![tactic(auto)]

pub mod desc;
pub mod kinds;
pub mod refusal;
pub mod relative;
