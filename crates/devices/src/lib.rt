// Devices that keep the marks put on them.
#![tactic(auto)]

pub mod list;
pub mod record;
pub mod refusal;
#[cfg(test)]
mod tests;
