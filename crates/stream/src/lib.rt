// Streams of marks: written into lent bytes, and read back.
#![tactic(auto)]

pub mod device;
pub mod play;
pub mod reader;
#[cfg(test)]
mod tests;
