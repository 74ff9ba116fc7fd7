//! Tests of parts of which nothing is claimed, or on which the program does not stand.
#![tactic(auto)]

#[cfg(test)]
mod journals;
#[cfg(test)]
mod keys;
#[cfg(test)]
mod pieces;
#[cfg(test)]
mod printing;
