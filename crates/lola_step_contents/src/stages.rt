//! Laws of a step of the evaluation model. A law is a function that does nothing: what it ensures is the law, and its proof is
//! proved with the crate.

ghost use Rattle.std.specs.Prelude.{ℕ, List, []};
ghost use Rattle.lola_model.specs.Acceptance.{IsAccepted};
ghost use Rattle.lola_model.specs.Table.{Step, TableRow};
ghost use Rattle.lola_step_contents.specs.Ends.{StepsEnd};
ghost use Rattle.lola_step_contents.specs.Nexts.{BeginsSo, StepsGo, StaySettled};
ghost use Rattle.lola_step_contents.specs.Stages.{AreSettled};

use lola_model::plan::Plan;
use lola_model::store::StreamStore;

/// Where a store stands between steps for the content after settled rows, it stands at the first stage once a step has begun.
pub fn steps_begin<S: StreamStore>(_plan: &Plan, _store: &S)
    requires { IsAccepted _plan.now }
    ensures { (start : ℕ) (rows : List TableRow) (step : Step) → AreSettled _plan.now rows
        → BeginsSo _plan.now start rows step (S.remembers _store.now) (S.seen _store.now) }
{}

/// Each step of an accepted plan goes by stages: the inputs, and then layer by layer the spawn clauses and the instances. What a
/// clause comes to over what is done before its stage is what it comes to in the model.
pub fn steps_go(_plan: &Plan)
    ensures { StepsGo _plan.now }
{}

/// Before the first step each stream without a spawn clause has its one instance, and no other has any.
pub fn one_instance_at_first(_plan: &Plan)
    ensures { AreSettled _plan.now [] }
{}

/// And so after each step: what has no spawn clause is never born again, nor closed, and what is born is born in the row of the step.
pub fn one_instance_after_each(_plan: &Plan)
    requires { IsAccepted _plan.now }
    ensures { StaySettled _plan.now }
{}

/// How a step ends once its streams are evaluated: by the first stream with a fault, or else by the first whose close clause has one,
/// or else with its lines and without the instances that are closed.
pub fn steps_end()
    ensures { StepsEnd }
{}
