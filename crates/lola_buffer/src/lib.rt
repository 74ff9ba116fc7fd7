//! The last values of a list that grows: as many of an instance's values as its accesses need.
//!
//! Promised: the answer for each place before the newest value, for whatever list was pushed.
#![tactic(auto)]

pub mod buffer;
