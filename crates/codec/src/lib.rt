// The bytes of marks: written from their fields, and taken apart again.
#![tactic(auto)]

pub mod encode;
pub mod parse;
