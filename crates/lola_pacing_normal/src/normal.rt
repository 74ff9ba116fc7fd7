//! Normal forms of formulas over inputs.

ghost use Rattle.std.specs.Prelude.{◌≡◌, ◌<◌, ◌&&◌, ◌||◌};
ghost use Rattle.lola_model.specs.Activity.{satisfies_some};
ghost use Rattle.lola_model.specs.Implication.{has_input};
ghost use Rattle.lola_model.specs.NormalForms.{HasInputsBelow};
ghost use Rattle.lola_pacing_normal.specs.Formulas.{AnswersNormal};
ghost use Rattle.lola_pacing_normal.specs.Least.{AnswersLeast};

use crate::answer::NormalEnd;
use crate::candidates::{both, unions};
use crate::least::least;
use lola_model::pacing::NormalForm;
use lola_model::spec::Formula;
use std::alloc::Global;

/// The normal form of "a and b": the least sets that have all of a set of each.
pub fn conjunction(
    alloc: Global,
    first: &NormalForm,
    second: &NormalForm,
) -> Result<NormalForm, NormalEnd>
    ensures { AnswersLeast (λ inputs. satisfies_some inputs first.now && satisfies_some inputs second.now) result }
{
    let candidates = unions(alloc, first.as_slice(), second.as_slice())?;
    least(alloc, candidates)
}

/// The normal form of "a or b": the least sets of both.
pub fn disjunction(
    alloc: Global,
    first: &NormalForm,
    second: &NormalForm,
) -> Result<NormalForm, NormalEnd>
    ensures { AnswersLeast (λ inputs. satisfies_some inputs first.now || satisfies_some inputs second.now) result }
{
    let candidates = both(alloc, first.as_slice(), second.as_slice())?;
    least(alloc, candidates)
}

/// The normal form of one input.
fn single(alloc: Global, input: u32) -> Result<NormalForm, NormalEnd>
    requires { input < 64 }
    ensures { AnswersLeast (λ inputs. has_input inputs input) result }
{
    let mut candidates = Vec::new(alloc);
    candidates.push(1 << input)?;
    least(alloc, candidates)
}

/// The normal form of a formula: its least satisfying sets, in the order of their lists of inputs. It
/// is `TooWide` where the normal form of some part of the formula has more than 256 sets.
pub fn normal(alloc: Global, formula: &Formula) -> Result<NormalForm, NormalEnd>
    requires { HasInputsBelow 64 formula.now }
    ensures { AnswersNormal formula.now result }
{
    match formula {
        Formula::Input(input) => single(alloc, *input),
        Formula::And(first, second) => {
            let first = normal(alloc, first)?;
            let second = normal(alloc, second)?;
            conjunction(alloc, &first, &second)
        }
        Formula::Or(first, second) => {
            let first = normal(alloc, first)?;
            let second = normal(alloc, second)?;
            disjunction(alloc, &first, &second)
        }
    }
}
