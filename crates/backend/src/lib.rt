// Marks, and the devices that they are put on.
#![tactic(auto)]

pub mod device;
pub mod feed;
pub mod font;
pub mod laws;
pub mod mark;
pub mod shape;
pub mod text_anchor;
