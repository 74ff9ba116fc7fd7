//! The instances of a stream, in order of birth.

ghost use Rattle.std.specs.Prelude.{◌≡◌, ◌≤◌};
ghost use Rattle.lola_instances_stream.specs.Each.{Each};
ghost use Rattle.lola_store.specs.Instances.{place_in};

use crate::instance::Instance;
use crate::tally::Timed;
use lola_model::spec::Kinds;
use lola_value::rate::Rate;
use lola_value::value::{Kind, Params};

/// The instances of a stream. The numbers of steps say when it was poisoned last and when an instance was born
/// last; 0 is none.
#[derive(Drop)]
pub struct Population {
    pub kind: Kind,
    pub parameters: Kinds,
    pub spawns: bool,
    pub kept: u32,
    /// The rates of the clauses whose deadlines count from the birth of each instance.
    pub locals: Vec<Rate>,
    pub bad_at: u64,
    pub spawned_at: u64,
    pub lives: Vec<Instance>,
    /// Room for the values of instances that are still to be born.
    pub spares: Vec<Vec<Timed>>,
}

/// The place of the instance with these parameters, if it lives. A stream without a spawn clause has one instance, so
/// it is looked at once.
pub fn place(lives: &[Instance], params: &Params) -> Option<usize>
    requires count { params.now.count ≤ 4 }
    requires counts { Each (λ x. x.params.count ≤ 4) lives.now }
    ensures { result ≡ place_in params.now lives.now 0 }
{
    for (i, x) in lives.iter().enumerate() {
        if params.is_same(&x.params) {
            return Some(i);
        }
    }
    None
}
