//! Copies of what filling in kinds leaves as it is.

ghost use Rattle.std.specs.Prelude.{◌≡◌, IfOk};
ghost use Rattle.lola_types.specs.Filled.{SameFormula, SamePace};

use lola_model::spec::{
    Constant, Constants, Formula, Kinds, Pace, Places, Texts, WindowSpec, Windows,
};
use lola_value::text::{Memory, Text};
use lola_value::value::Kind;
use std::alloc::Global;

/// A copy of a text.
pub fn text(alloc: Global, text: &Text) -> Result<Text, Memory>
    ensures { IfOk result (λ copy. copy ≡ text.now) }
{
    Text::from_bytes(alloc, text.as_bytes())
}

/// A copy of texts.
pub fn texts(alloc: Global, texts: &[Text]) -> Result<Texts, Memory>
    ensures { IfOk result (λ copy. copy ≡ texts.now) }
{
    let mut copy = Texts::create(alloc);
    for item in texts {
        copy.push(text(alloc, item)?)?;
    }
    Ok(copy)
}

/// A copy of places.
pub fn places(alloc: Global, places: &[u32]) -> Result<Places, Memory>
    ensures { IfOk result (λ copy. copy ≡ places.now) }
{
    let mut copy = Places::create(alloc);
    for at in places {
        copy.push(*at)?;
    }
    Ok(copy)
}

/// A copy of kinds.
pub fn kinds(alloc: Global, kinds: &[Kind]) -> Result<Kinds, Memory>
    ensures { IfOk result (λ copy. copy ≡ kinds.now) }
{
    let mut copy = Kinds::create(alloc);
    for kind in kinds {
        copy.push(*kind)?;
    }
    Ok(copy)
}

/// A copy of windows.
pub fn windows(alloc: Global, windows: &[WindowSpec]) -> Result<Windows, Memory>
    ensures { IfOk result (λ copy. copy ≡ windows.now) }
{
    let mut copy = Windows::create(alloc);
    for window in windows {
        copy.push(*window)?;
    }
    Ok(copy)
}

/// A copy of a constant.
fn constant(constant: &Constant) -> Constant
    ensures { result ≡ constant.now }
{
    Constant {
        kind: constant.kind,
        literal: constant.literal,
        place: constant.place,
        before: constant.before,
    }
}

/// A copy of constants.
pub fn constants(alloc: Global, constants: &[Constant]) -> Result<Constants, Memory>
    ensures { IfOk result (λ copy. copy ≡ constants.now) }
{
    let mut copy = Constants::create(alloc);
    for item in constants {
        copy.push(constant(item))?;
    }
    Ok(copy)
}

/// A copy of a formula.
fn formula(alloc: Global, item: &Formula) -> Result<Formula, Memory>
    ensures { IfOk result (λ copy. SameFormula item.now copy) }
{
    match item {
        Formula::Input(i) => Ok(Formula::Input(*i)),
        Formula::And(a, b) => {
            let first = formula(alloc, a)?;
            let second = formula(alloc, b)?;
            let a = Box::new(alloc, first)?;
            let b = Box::new(alloc, second)?;
            Ok(Formula::And(a, b))
        }
        Formula::Or(a, b) => {
            let first = formula(alloc, a)?;
            let second = formula(alloc, b)?;
            let a = Box::new(alloc, first)?;
            let b = Box::new(alloc, second)?;
            Ok(Formula::Or(a, b))
        }
    }
}

/// A copy of a pacing as written, if it was.
pub fn pace(alloc: Global, pace: &Option<Pace>) -> Result<Option<Pace>, Memory>
    ensures { IfOk result (λ copy. SamePace pace.now copy) }
{
    match pace {
        None => Ok(None),
        Some(Pace::Event(at, written)) => {
            let copy = formula(alloc, written)?;
            Ok(Some(Pace::Event(*at, copy)))
        }
        Some(Pace::Rate(at, rate)) => Ok(Some(Pace::Rate(*at, *rate))),
        Some(Pace::Global(at, rate)) => Ok(Some(Pace::Global(*at, *rate))),
        Some(Pace::Local(at, rate)) => Ok(Some(Pace::Local(*at, *rate))),
    }
}
