//! Rows over an engine with the bounded store, beside one with the store of whole lists.
#![tactic(auto)]

#[cfg(test)]
mod driving;
#[cfg(test)]
mod stores;
