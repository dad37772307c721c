// The bytes that the program reads and the lines that it prints.
#![tactic(auto)]

pub mod input;
pub mod line;
#[cfg(test)]
mod tests;
