//! Laws of a step.

ghost use Rattle.std.specs.Prelude.{◌≡◌, ◌<◌, ℕ, List, length};
ghost use Rattle.lola_model.specs.Accepted.{HasLayers};
ghost use Rattle.lola_model.specs.Model.{last_row};
ghost use Rattle.lola_model.specs.NextStep.{due, open_from};
ghost use Rattle.lola_model.specs.Table.{Step, TableRow};
ghost use Rattle.lola_replay_table.specs.Open.{IsOpen};
ghost use Rattle.lola_replay_step.specs.AnsweringOf.{IsTriedFor, KeepsKnowing, Notes, plan_rank};
ghost use Rattle.lola_replay_table.specs.declared.question.Question.{Question};
ghost use Rattle.lola_replay_table.specs.declared.table.KnownStream.{KnownStream};
ghost use Rattle.lola_replay_step.specs.Dues.{in_time, known_due};
ghost use Rattle.lola_replay_step.specs.Rests.{Rests};

use lola_model::plan::Plan;

/// What a step comes to is known piece by piece. Where what is known agrees with a row that solves the equations of the step, and an
/// open question is answered with what its clause comes to of what is known, then what is known with the answer agrees with that row.
pub fn answers_keep_agreement(_plan: &Plan)
    ensures { (start : ℕ) (step : Step) (question : Question) (before after : List KnownStream) → IsOpen before question
        → Notes _plan.now start step question before after → KeepsKnowing _plan.now start step before after }
{}

/// The question that another one waits for is open, and of lower rank. So a list in which each question waits for the one behind it has
/// no question twice, and is no longer than the rank of its first.
pub fn questions_wait_for_lower(_plan: &Plan)
    requires { HasLayers _plan.now }
    ensures { (start : ℕ) (step : Step) (known : List KnownStream) → length known ≡ length _plan.now.spec.streams → (question next : Question)
        → IsOpen known question → IsTriedFor _plan.now start step known question next
        → IsOpen known next × (plan_rank _plan.now next < plan_rank _plan.now question) }
{}

/// The first deadline that is told by what is known between steps is the one that comes next behind the rows, if that is a time.
pub fn due_is_known(_plan: &Plan)
    ensures { (start : ℕ) (rows : List TableRow) (known : List KnownStream) → Rests _plan.now rows known
        → known_due _plan.now (open_from (last_row rows)) start known ≡ in_time (due _plan.now rows start) }
{}
