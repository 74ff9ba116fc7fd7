//! Tests of whole runs over sources in memory whose reads fail, of gates that hold threads or count, and of the board at which threads wait
//! for each other.
#![tactic(auto)]

#[cfg(test)]
mod boards;
#[cfg(test)]
mod cases;
#[cfg(test)]
mod counting;
#[cfg(test)]
mod failing;
#[cfg(test)]
mod meeting;
