//! The laws, about definitions alone.

ghost use Rattle.lola_front_law.specs.Decided.{AreDecided};
ghost use Rattle.lola_front_law.specs.OneAnswer.{AnswersAreOne, MeaningsAreOne};
ghost use Rattle.lola_front_law.specs.OneCycle.{GraphsAreOne};
ghost use Rattle.lola_front_law.specs.OneKind.{KindsAreOne};
ghost use Rattle.lola_front_law.specs.OneLine.{NamesAreWords, VerdictsAreLines};
ghost use Rattle.lola_front_law.specs.OnePacing.{FindingsAreOne, PacingsAreOne};
ghost use Rattle.lola_front_law.specs.OneRest.{CyclesAreOne, PlansAreOne};
ghost use Rattle.lola_front_law.specs.OneSpec.{ResolvedAreAlike, FilledAreAlike, FullAreAlike};

use crate::alike::{entries_are_same, models_are_same, verdicts_are_same};

/// Each text has declarations of whose names nothing is refused, or a refusal for a token, for its grammar or for a name; never
/// both, and one alone. So a text that is refused so has no plan, and no refusal for kinds, pacings or a cycle.
pub fn names_are_decided()
    ensures { AreDecided }
{}

/// All specifications that a list of declarations is resolved to are equal but for the addresses of the boxes in their expressions
/// and formulas: streams, windows and texts have the same numbers, and constants the same values.
pub fn resolved_are_alike()
    ensures { ResolvedAreAlike }
{}

/// Kinds are filled in of a specification in one way: specifications that differ in addresses alone do so with their kinds filled in.
pub fn filled_are_alike()
    ensures { FilledAreAlike }
{}

/// All specifications that a text is resolved to, with their kinds filled in, differ in addresses alone.
pub fn full_are_alike()
    ensures { FullAreAlike }
{}

/// A text has one refusal for kinds and literals, or none: of all specifications that it is resolved to the same is refused. A
/// text that is refused so has no plan, and no refusal for pacings or a cycle.
pub fn kinds_are_one()
    ensures { KindsAreOne }
{}

/// A specification whose rates are in lowest terms has one list of pacings or one refusal for pacings, whatever way they are found.
pub fn findings_are_one()
    ensures { FindingsAreOne }
{}

/// All specifications that a text is resolved to, with their kinds filled in, have one list of pacings, or the text has one refusal
/// for pacings. A text that is refused so has no plan, and no refusal for a closed walk.
pub fn pacings_are_one()
    ensures { PacingsAreOne }
{}

/// All specifications that a text is resolved to, with their kinds filled in, have one graph. So a text has one refusal for a
/// closed walk, or none, and one that is refused so has no plan.
pub fn graphs_are_one()
    ensures { GraphsAreOne }
{}

/// A specification whose kinds are filled in has no refusal for a closed walk where it has no such walk, and else one refusal.
pub fn cycles_are_one()
    ensures { CyclesAreOne }
{}

/// Two accepted plans of one specification and its pacings are equal: layers, kept values and panes are functions of these.
pub fn plans_are_one()
    ensures { PlansAreOne }
{}

/// A text has one refusal, whichever phase refuses, or plans, never both. Its plans are equal but for the addresses of the boxes in
/// their expressions and formulas.
pub fn answers_are_one()
    ensures { AnswersAreOne }
{}

/// All plans of a text mean the same: of each journal they have the same models, the same verdict lines are written, and the same
/// fault is told. So what a text says of its inputs does not hang on which of its plans a run has.
pub fn meanings_are_one()
    ensures { MeaningsAreOne }
{
    entries_are_same();
    models_are_same();
    verdicts_are_same();
    answers_are_one();
}

/// The name of each stream of a compiled plan has letters, digits and `_` alone: those of inputs and outputs are names of the
/// text, and the K-th trigger is `trigger_K`.
pub fn names_are_words()
    ensures { NamesAreWords }
{}

/// Each verdict line of a compiled plan ends with its one LF, whatever texts its values, parameters and messages have; so do
/// all lines of the verdicts of each table.
pub fn verdicts_are_lines()
    ensures { VerdictsAreLines }
{}
