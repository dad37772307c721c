// Rights and capabilities, and what is true of the access model.
#![tactic(auto)]

pub mod capability;
mod laws;
pub mod right;
#[cfg(test)]
mod tests;
pub mod word;
