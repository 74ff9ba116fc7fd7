//! The tasks of a layer.

ghost use Rattle.std.specs.Prelude.{◌≡◌, ◌≤◌, ◌<◌, ◌^◌, ℕ, [], ◌∷◌, IsSomeAnd, IsTrue, MatchOption, Some, length, slice_get, true};
ghost use Rattle.lola_value.specs.Kinds.{are_of_kinds, is_outcome_of, is_well_formed};
ghost use Rattle.lola_value.specs.Naming.{the_values};
ghost use Rattle.lola_value.specs.Times.{latest};
ghost use Rattle.lola_model.specs.Model.{clause_answer, eval_pacing, filled_kind};
ghost use Rattle.lola_model.specs.Store.{IsRunning, instances_seen, layout_of, no_params, parameters_of};
ghost use Rattle.lola_expr.specs.Plans.{IsEvalCode};
ghost use Rattle.lola_step_contents.specs.Ready.{IsClauseAskable};
ghost use Rattle.lola_step.specs.Clauses.{IsAnswer};
ghost use Rattle.lola_step.specs.Once.{AreReady-prop};
ghost use Rattle.lola_step.specs.Tasks.{AreReady, AreTasks, IsActiveTask, IsOutcome, IsTask, IsResult, IsResultAt, params_seen};

use crate::clauses::instance_outcome;
use crate::moment::{Moment, is_active_for};
use crate::schedule::has_clause;
use lola_expr::plan::{EvalCode, PlanCode};
use lola_model::job::Job;
use lola_model::pacing::{ClausePacings, Pacing};
use lola_model::plan::Plan;
use lola_model::spec::{Clause, Stream};
use lola_model::store::StreamStore;
use lola_port::Gate;
use lola_value::brief::Brief;
use lola_value::value::Params;
use lola_workers::{Share, run_layer};
use std::thread::Threads;

/// An instance to evaluate: its stream, and its place among the stream's instances.
#[derive(Clone, Copy)]
pub struct Task {
    pub stream: u32,
    pub index: u32,
}

/// The pacing of the eval clause of stream `n`.
pub(crate) fn eval_pacing_at(pacings: &[ClausePacings], n: usize) -> &Option<Pacing>
    requires { n < length pacings.now }
    ensures { result.now ≡ eval_pacing (slice_get pacings.now n) }
{
    &pacings[n].eval
}

/// Instances to evaluate over a lent store, each a task whose outcome is that of its stream's eval clause.
#[derive(Drop)]
pub(crate) struct LayerJob<'a, S: StreamStore> {
    plan: &'a Plan,
    code: &'a PlanCode,
    moment: &'a Moment,
    store: &'a S,
    tasks: &'a [Task],
    ghost coded: { code.now ≡ plan.now.spec },
    ghost in_time: { moment.now.time ≤ latest },
    ghost running: { IsRunning (S.seen store.now) },
    ghost layout: { (S.seen store.now).layout ≡ layout_of plan.now },
    ghost ready: { AreReady plan.now moment.now (S.seen store.now) tasks.now } by { AreReady-prop plan.now moment.now (S.seen store.now) tasks.now },
}

impl<'a, S: StreamStore> Job for LayerJob<'a, S> {
    ghost tasks = { λ job. length job.tasks.now };

    ghost gives = { λ job i r. IsResultAt job.plan.now job.moment.now (S.remembers job.store.now) (S.seen job.store.now) (slice_get job.tasks.now i) r };

    fn answer(&self, task: u32) -> Brief {
        task_outcome(
            self.plan,
            self.code,
            self.moment,
            &no_parameters(),
            self.store,
            self.tasks[task as usize],
        )
    }
}

/// No parameters.
pub(crate) fn no_parameters() -> Params
    ensures { result ≡ no_params }
{
    Params::none()
}

/// What the eval clause of a task's stream comes to, for its instance: missing where it is not active for it. No parameters are lent to
/// it, for an instance that has none.
pub(crate) fn task_outcome<S: StreamStore>(
    plan: &Plan,
    code: &PlanCode,
    moment: &Moment,
    none: &Params,
    store: &S,
    task: Task,
) -> Brief
    requires code { code.now ≡ plan.now.spec }
    requires none { none.now ≡ no_params }
    requires in_time { moment.now.time ≤ latest }
    requires running { IsRunning (S.seen store.now) }
    requires layout { (S.seen store.now).layout ≡ layout_of plan.now }
    requires ready { IsTask plan.now moment.now (S.seen store.now) task }
    ensures { IsResult plan.now moment.now (S.remembers store.now) (S.seen store.now) task result }
{
    let pacing = eval_pacing_at(plan.pacings.as_slice(), task.stream as usize);
    if is_active_for(moment, pacing, store, task.stream, task.index) {
        active_outcome(plan, code, none, store, task)
    } else {
        Brief::missing()
    }
}

/// What the eval clause of a stream comes to for an instance with parameters of its own, which are copied from the store. It is a
/// function of its own, so that no room for them is made where there are none.
#[inline(never)]
fn own_outcome<S: StreamStore>(
    plan: &Plan,
    stream: &Stream,
    clause: &Clause,
    code: &EvalCode,
    store: &S,
    task: Task,
) -> Brief
    requires code { IsEvalCode (Some clause.now) code.now }
    requires running { IsRunning (S.seen store.now) }
    requires lives { task.index < length (instances_seen (S.seen store.now) task.stream) }
    requires asks { IsTrue (are_of_kinds (parameters_of (slice_get (S.seen store.now).layout.streams task.stream)) (the_values (params_seen (S.seen store.now) task.stream task.index)))
        → IsClauseAskable (S.seen store.now) (params_seen (S.seen store.now) task.stream task.index) plan.now.spec.texts (filled_kind stream.now ∷ []) clause.now }
    ensures kind { IsTrue (is_outcome_of (filled_kind stream.now) result) }
    ensures answer { IsAnswer plan.now (S.remembers store.now) (S.seen store.now) (params_seen (S.seen store.now) task.stream task.index) (λ c p. clause_answer plan.now.spec c p clause.now) result }
{
    let params = store.params_of(task.stream, task.index);
    instance_outcome(plan, stream, clause, code, &params, store)
}

/// What it comes to where it is active. A stream without a spawn clause has no parameters, and its instance is not asked for any.
fn active_outcome<S: StreamStore>(
    plan: &Plan,
    code: &PlanCode,
    none: &Params,
    store: &S,
    task: Task,
) -> Brief
    requires code { code.now ≡ plan.now.spec }
    requires none { none.now ≡ no_params }
    requires running { IsRunning (S.seen store.now) }
    requires layout { (S.seen store.now).layout ≡ layout_of plan.now }
    requires ready { IsActiveTask plan.now (S.seen store.now) task }
    ensures { IsOutcome plan.now true (S.remembers store.now) (S.seen store.now) task result }
{
    let stream = &plan.spec.streams.as_slice()[task.stream as usize];
    match &stream.eval {
        Some(clause) => {
            let code = code.eval_of(task.stream as usize);
            if has_clause(&stream.spawn) {
                own_outcome(plan, stream, clause, code, store, task)
            } else {
                instance_outcome(plan, stream, clause, code, none, store)
            }
        }
        None => Brief::missing(),
    }
}

/// Evaluates each task, shared out among so many workers, as far as each has a share, and leaves the outcome of task `i` in `results[i]`. Of
/// each task the gate hears before it is done.
pub(crate) fn run_tasks<R: Threads + Sync, S: StreamStore + Sync, G: Gate + Sync>(
    rt: &R,
    gate: &G,
    plan: &Plan,
    code: &PlanCode,
    moment: &Moment,
    store: &S,
    tasks: &[Task],
    shares: &mut [Share],
    results: &mut [Brief],
    workers: u32,
)
    requires code { code.now ≡ plan.now.spec }
    requires workers { (1 ≤ workers) × (workers ≤ 64) }
    requires places { length results.old ≡ length tasks.now }
    requires numbered { length tasks.now < 2 ^ 32 }
    requires in_time { moment.now.time ≤ latest }
    requires running { IsRunning (S.seen store.now) }
    requires layout { (S.seen store.now).layout ≡ layout_of plan.now }
    requires ready { AreTasks plan.now moment.now (S.seen store.now) tasks.now }
    ensures { (i : ℕ) → i < length tasks.now → IsSomeAnd (slice_get results.new i)
        (λ r. IsResultAt plan.now moment.now (S.remembers store.now) (S.seen store.now) (slice_get tasks.now i) r) }
{
    let job = LayerJob {
        plan,
        code,
        moment,
        store,
        tasks,
    };
    let count = shares.len().min(workers as usize);
    run_layer(rt, gate, &job, &mut shares[..count], results);
}
