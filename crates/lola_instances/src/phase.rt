//! How far a store is.

ghost use Rattle.std.specs.Prelude.{◌≡◌, ◌≤◌, ◌-◌};
ghost use Rattle.lola_instances.specs.Phases.{start_in, time_in};

/// How far a store is: new, with a start, or in a step.
#[derive(Clone, Copy)]
pub enum StorePhase {
    New,
    Started(u64),
    Running(u64, u64),
}

/// Where time counts from, 0 while that is not set.
pub fn start_of(phase: StorePhase) -> u64
    ensures { result ≡ start_in phase }
{
    match phase {
        StorePhase::New => 0,
        StorePhase::Started(start) => start,
        StorePhase::Running(start, _) => start,
    }
}

/// The time of this step, or else the start.
pub fn time_of(phase: StorePhase) -> u64
    ensures { result ≡ time_in phase }
{
    match phase {
        StorePhase::New => 0,
        StorePhase::Started(start) => start,
        StorePhase::Running(_, time) => time,
    }
}

/// How long after the start a time is.
pub fn time_since(start: u64, time: u64) -> u64
    requires { start ≤ time }
    ensures { result ≡ time - start }
{
    time - start
}
