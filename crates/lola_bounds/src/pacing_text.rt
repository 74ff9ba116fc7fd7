//! Pacings as they are shown.

ghost use Rattle.std.specs.Prelude.{◌≡◌, ◌++◌, ◌≤◌, ◌<◌, [], ◌∷◌, nat_eq, decimal, OnOk, if◌then◌else◌, filter, length};
ghost use Rattle.lola_model.specs.Implication.{has_input};
ghost use Rattle.lola_model.specs.Model.{is_input};
ghost use Rattle.lola_bounds.specs.Report.{set_text, sets_text, rate_text, local_text, pacing_text};

use lola_model::pacing::{InputSet, Pacing};
use lola_model::spec::Stream;
use lola_value::numbers::number_text;
use lola_value::rate::Rate;
use lola_value::text::{Memory, Text};

/// Whether an input is in a set.
fn has_input(set: &InputSet, input: u32) -> bool
    requires { input < 64 }
    ensures { result ≡ has_input set.now.0 input }
{
    (set.0 >> input) & 1 == 1
}

/// Appends a separator, but none before the first.
fn separator(first: bool, text: &[u8], to: &mut Text) -> Result<(), Memory>
    ensures { OnOk result (to.new ≡ to.old ++ (if first then [] else text.now)) }
{
    if first {
        return Ok(());
    }
    to.append(text)
}

/// Appends the names of a set's inputs, in order.
fn set_text(streams: &[Stream], set: &InputSet, to: &mut Text) -> Result<(), Memory>
    requires { length (filter is_input streams.now) ≤ 64 }
    ensures { OnOk result (to.new ≡ to.old ++ set_text streams.now set.now) }
{
    let mut input = 0;
    let mut first = true;
    for stream in streams {
        if !stream.is_input() {
            continue;
        }
        let number = input;
        input += 1;
        if !has_input(set, number) {
            continue;
        }
        separator(first, b" && ", to)?;
        to.append(stream.name.as_bytes())?;
        first = false;
    }
    Ok(())
}

/// Appends a normal form.
fn sets_text(streams: &[Stream], sets: &[InputSet], to: &mut Text) -> Result<(), Memory>
    requires { length (filter is_input streams.now) ≤ 64 }
    ensures { OnOk result (to.new ≡ to.old ++ sets_text streams.now sets.now) }
{
    let mut first = true;
    for set in sets {
        separator(first, b" || ", to)?;
        set_text(streams, set, to)?;
        first = false;
    }
    Ok(())
}

/// Appends the denominator of a rate behind a slash, but not that of a whole number.
fn denominator_text(den: u64, to: &mut Text) -> Result<(), Memory>
    ensures { OnOk result (to.new ≡ to.old ++ (if nat_eq den 1 then [] else 47 ∷ decimal den)) }
{
    if den == 1 {
        return Ok(());
    }
    to.append(b"/")?;
    number_text(den, to)
}

/// Appends a rate.
fn rate_text(rate: &Rate, to: &mut Text) -> Result<(), Memory>
    ensures { OnOk result (to.new ≡ to.old ++ rate_text rate.now) }
{
    number_text(rate.num(), to)?;
    denominator_text(rate.den(), to)?;
    to.append(b"Hz")
}

/// Appends a local rate.
fn local_text(rate: &Rate, to: &mut Text) -> Result<(), Memory>
    ensures { OnOk result (to.new ≡ to.old ++ local_text rate.now) }
{
    to.append(b"Local(")?;
    rate_text(rate, to)?;
    to.append(b")")
}

/// Appends a pacing.
pub(crate) fn pacing_text(
    streams: &[Stream],
    pacing: &Option<Pacing>,
    to: &mut Text,
) -> Result<(), Memory>
    requires { length (filter is_input streams.now) ≤ 64 }
    ensures { OnOk result (to.new ≡ to.old ++ pacing_text streams.now pacing.now) }
{
    match pacing {
        None => Ok(()),
        Some(Pacing::Event(form)) => sets_text(streams, form.as_slice(), to),
        Some(Pacing::Periodic(rate)) => rate_text(rate, to),
        Some(Pacing::Local(rate)) => local_text(rate, to),
    }
}
