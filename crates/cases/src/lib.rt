// Examples at the edges of the rules: of sheets, of words, of every kind of store.
#![tactic(auto)]

#[cfg(test)]
mod sheets;
pub mod step;
#[cfg(test)]
mod stores;
#[cfg(test)]
mod words;
