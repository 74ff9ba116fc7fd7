//! The words of a state's lines.

ghost use Rattle.std.specs.Prelude.{◌≡◌, ◌∷◌, ◌++◌, OnOk, OnErr, decimal};
ghost use Rattle.lola_value.specs.Appending.{AppendsPart};
ghost use Rattle.lola_value.specs.Numbers.{integer_text};
ghost use Rattle.lola_model.specs.Texts.{value_text};
ghost use Rattle.lola_report.specs.Pieces.{bool_name};
ghost use Rattle.lola_save_text.specs.Lines.{panes_text, partial_text, partials_text, time_or_dash, values_text};

use crate::spelling::quote;
use lola_panes::partial::Partial;
use lola_save_text::state::SavedPanes;
use lola_value::numbers::{integer_text, number_text};
use lola_value::text::{Field, Memory, Text};
use lola_value::times::time_text;

fn bool_name(value: bool) -> &'static str
    ensures { result.now ≡ bool_name value }
{
    if value { "true" } else { "false" }
}

// Appends a value.
fn value_text(value: &Field, to: &mut Text) -> Result<(), Memory>
    ensures ok { OnOk result (to.new ≡ to.old ++ value_text value.now) }
    ensures memory { OnErr result (AppendsPart to.old to.new (value_text value.now)) }
{
    match value {
        Field::Absent => to.append(b"#"),
        Field::Bool(b) => to.append(bool_name(*b).as_bytes()),
        Field::Int(z) => integer_text(*z, to),
        Field::Text(text) => quote(text.as_bytes(), to),
    }
}

// Appends a value behind a space.
fn one_more_value(value: &Field, to: &mut Text) -> Result<(), Memory>
    ensures ok { OnOk result (to.new ≡ to.old ++ 32 ∷ value_text value.now) }
    ensures memory { OnErr result (AppendsPart to.old to.new (32 ∷ value_text value.now)) }
{
    to.append(b" ")?;
    value_text(value, to)
}

/// Appends values, each behind a space. Where there is no memory, a front of them may stand there.
pub(crate) fn values_text(values: &[Field], to: &mut Text) -> Result<(), Memory>
    ensures ok { OnOk result (to.new ≡ to.old ++ values_text values.now) }
    ensures memory { OnErr result (AppendsPart to.old to.new (values_text values.now)) }
{
    for value in values {
        one_more_value(value, to)?;
    }
    Ok(())
}

/// Appends a time, or a dash where there is none. Where there is no memory the text is as it was.
pub(crate) fn time_or_dash(time: Option<u64>, to: &mut Text) -> Result<(), Memory>
    ensures ok { OnOk result (to.new ≡ to.old ++ time_or_dash time) }
    ensures err { OnErr result (to.new ≡ to.old) }
{
    match time {
        None => to.append(b"-"),
        Some(t) => time_text(t, to),
    }
}

// Appends a sum and a count.
fn mean_text(total: i128, count: u64, to: &mut Text) -> Result<(), Memory>
    ensures ok { OnOk result (to.new ≡ to.old ++ (integer_text total ++ 47 ∷ decimal count)) }
    ensures memory { OnErr result (AppendsPart to.old to.new (integer_text total ++ 47 ∷ decimal count)) }
{
    integer_text(total, to)?;
    to.append(b"/")?;
    number_text(count, to)
}

// Appends a partial result.
fn partial_text(partial: &Partial, to: &mut Text) -> Result<(), Memory>
    ensures ok { OnOk result (to.new ≡ to.old ++ partial_text partial.now) }
    ensures memory { OnErr result (AppendsPart to.old to.new (partial_text partial.now)) }
{
    match *partial {
        Partial::Number(z) => integer_text(z, to),
        Partial::Extreme(None) => to.append(b"-"),
        Partial::Extreme(Some(z)) => integer_text(z, to),
        Partial::Mean { total, count } => mean_text(total, count, to),
        Partial::Truth(b) => to.append(bool_name(b).as_bytes()),
    }
}

// Appends a partial result behind a space.
fn one_more_partial(partial: &Partial, to: &mut Text) -> Result<(), Memory>
    ensures ok { OnOk result (to.new ≡ to.old ++ 32 ∷ partial_text partial.now) }
    ensures memory { OnErr result (AppendsPart to.old to.new (32 ∷ partial_text partial.now)) }
{
    to.append(b" ")?;
    partial_text(partial, to)
}

// Appends partial results, each behind a space.
fn partials_text(partials: &[Partial], to: &mut Text) -> Result<(), Memory>
    ensures ok { OnOk result (to.new ≡ to.old ++ partials_text partials.now) }
    ensures memory { OnErr result (AppendsPart to.old to.new (partials_text partials.now)) }
{
    for partial in partials {
        one_more_partial(partial, to)?;
    }
    Ok(())
}

/// Appends the number of the newest pane and the partial results, or a dash, behind a space. Where there is no memory, a front of them
/// may stand there.
pub(crate) fn panes_text(panes: &Option<SavedPanes>, to: &mut Text) -> Result<(), Memory>
    ensures ok { OnOk result (to.new ≡ to.old ++ panes_text panes.now) }
    ensures memory { OnErr result (AppendsPart to.old to.new (panes_text panes.now)) }
{
    to.append(b" ")?;
    match panes {
        None => to.append(b"-"),
        Some(panes) => {
            number_text(panes.last, to)?;
            partials_text(panes.partials.as_slice(), to)
        }
    }
}
