// The reader of sheets: bytes in, records out.
#![tactic(auto)]

pub mod count;
pub mod fault;
pub mod reader;
pub mod record;
#[cfg(test)]
mod tests;
