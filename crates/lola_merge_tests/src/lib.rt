//! Tests of schedules of sources and the engine: by the merge object alone, and by the intake over a queue.
#![tactic(auto)]

#[cfg(test)]
mod queued;
#[cfg(test)]
mod schedules;
