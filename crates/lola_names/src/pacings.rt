//! Pacings resolved.

ghost use Rattle.std.specs.Prelude.{◌≡◌, IfOk};
ghost use Rattle.lola_names_refused.specs.Table.{meaning_in};
ghost use Rattle.lola_names.specs.Clauses.{input_of};
ghost use Rattle.lola_names.specs.Made.{IsFormulaBy, IsPaceBy, IsPacingBy};

use crate::targets::{Target, TargetTable};
use lola_model::spec::{Formula, Pace};
use lola_names_refused::quantities::rate;
use lola_parser_grammar::literals::Name;
use lola_parser_grammar::pacing::{self as tree, Pacing, Rhythm};
use lola_value::text::Memory;
use std::alloc::Global;

/// The input that a name stands for; the first for one that stands for none, which is refused.
fn input(targets: &TargetTable, name: &Name) -> u32
    ensures { result ≡ input_of (meaning_in targets.now name.now.text) }
{
    match targets.meaning(name.text.as_bytes()) {
        Some(Target::Input(_, number)) => number,
        _ => 0,
    }
}

fn boxed(alloc: Global, formula: Formula) -> Result<Box<Formula>, Memory>
    ensures { IfOk result (λ b. b.value ≡ formula) }
{
    Ok(Box::new(alloc, formula)?)
}

/// A formula resolved.
pub fn formula(alloc: Global, targets: &TargetTable, x: &tree::Formula) -> Result<Formula, Memory>
    ensures { IfOk result (λ r. IsFormulaBy targets.now x.now r) }
{
    match x {
        tree::Formula::Input(name) => Ok(Formula::Input(input(targets, name))),
        tree::Formula::Both(_, x, y) => {
            let first = formula(alloc, targets, x.get())?;
            let second = formula(alloc, targets, y.get())?;
            let a = boxed(alloc, first)?;
            let b = boxed(alloc, second)?;
            Ok(Formula::And(a, b))
        }
        tree::Formula::Either(_, x, y) => {
            let first = formula(alloc, targets, x.get())?;
            let second = formula(alloc, targets, y.get())?;
            let a = boxed(alloc, first)?;
            let b = boxed(alloc, second)?;
            Ok(Formula::Or(a, b))
        }
    }
}

fn pace(alloc: Global, targets: &TargetTable, at: u32, rhythm: &Rhythm) -> Result<Pace, Memory>
    ensures { IfOk result (λ r. IsPaceBy targets.now at rhythm.now r) }
{
    match rhythm {
        Rhythm::Rate(quantity) => Ok(Pace::Rate(at, rate(quantity))),
        Rhythm::Formula(x) => {
            let formula = formula(alloc, targets, x)?;
            Ok(Pace::Event(at, formula))
        }
        Rhythm::Global(quantity) => Ok(Pace::Global(at, rate(quantity))),
        Rhythm::Local(quantity) => Ok(Pace::Local(at, rate(quantity))),
    }
}

/// A pacing resolved, where it is written.
pub fn pacing(
    alloc: Global,
    targets: &TargetTable,
    x: &Option<Pacing>,
) -> Result<Option<Pace>, Memory>
    ensures { IfOk result (λ r. IsPacingBy targets.now x.now r) }
{
    match x {
        None => Ok(None),
        Some(x) => {
            let pace = pace(alloc, targets, x.at, &x.rhythm)?;
            Ok(Some(pace))
        }
    }
}
