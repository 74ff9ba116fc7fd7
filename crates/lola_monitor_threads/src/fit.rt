//! Whether a row may be run, tested of the row itself.
ghost use Rattle.std.specs.Prelude.{◌≡◌, ◌+◌, ◌++◌, ◌&&◌, ◌<◌, ◌↔◌, [], ◌∷◌, IfOk, IsTrue, OnOk};
ghost use Rattle.std.specs.List.{AllZip};
ghost use Rattle.lola_model.specs.Trace.{IsFieldOf, IsTraceableText, input_kinds};
ghost use Rattle.lola_monitor_run.specs.Running.{keeping};
ghost use Rattle.lola_value.specs.Arithmetic.{is_within};
ghost use Rattle.lola_value.specs.Kinds.{is_integer};
ghost use Rattle.lola_monitor_threads.specs.Takings.{IsFit, most_taken};

use lola_model::journal::Entry;
use lola_model::plan::Plan;
use lola_model::spec::Stream;
use lola_monitor_run::run::Run;
use lola_value::arithmetic::range;
use lola_value::text::{Field, Memory};
use lola_value::times::LATEST;
use lola_value::value::Kind;
use std::alloc::Global;
use std::marker::Model;

/// How many rows a run may take: 64 sources of 2^40 rows each have no more.
const MOST_TAKEN: u64 = 70368744177664;

/// How many sources a run has, and the kinds of its inputs. Contracts see these two.
#[derive(Drop)]
pub struct RunInputs {
    count: u32,
    kinds: Vec<Kind>,
}

impl Model for RunInputs {
    ghost use Rattle.lola_monitor_threads.specs.Takings.{InputsOf};

    ghost Value = { InputsOf };

    ghost view = { λ i. record { count = i.count; kinds = i.kinds.items } };
}

impl RunInputs {
    /// The inputs of a plan, and so many sources.
    pub fn create(alloc: Global, plan: &Plan, count: u32) -> Result<RunInputs, Memory>
        ensures count { IfOk result (λ inputs. inputs.count ≡ count) }
        ensures kinds { IfOk result (λ inputs. inputs.kinds ≡ input_kinds plan.now.spec.streams) }
    {
        let mut kinds = Vec::new(alloc);
        for stream in plan.spec.streams.as_slice() {
            add_kind(&mut kinds, stream)?;
        }
        Ok(RunInputs { count, kinds })
    }

    /// How many sources there are.
    pub fn count(&self) -> u32
        ensures { result ≡ self.now.count }
    {
        self.count
    }

    /// Whether a run of a plan with these inputs takes this entry.
    pub fn fit(&self, run: &Run, entry: &Entry) -> bool
        requires { self.now.kinds ≡ input_kinds (keeping run.now).state.plan.spec.streams }
        ensures { IsTrue result ↔ IsFit self.now.count (keeping run.now) entry.now }
    {
        entry.row.source < self.count
            && entry.row.stamp <= LATEST
            && has_room(run)
            && are_of_kinds(entry.row.fields.as_slice(), &self.kinds)
    }
}

// Adds the kind of a stream, where it is an input.
fn add_kind(kinds: &mut Vec<Kind>, stream: &Stream) -> Result<(), Memory>
    ensures { OnOk result (kinds.new.items ≡ kinds.old.items ++ input_kinds (stream.now ∷ [])) }
{
    if stream.is_input() {
        kinds.push(stream.filled_kind())?;
    }
    Ok(())
}

// Whether one row more can be counted.
fn has_room(run: &Run) -> bool
    ensures { IsTrue result ↔ (keeping run.now).accepted + (keeping run.now).late < most_taken }
{
    run.accepted() < MOST_TAKEN && run.late() < MOST_TAKEN - run.accepted()
}

// Whether fields are each absent or of the kind at its place, and as many.
fn are_of_kinds(fields: &[Field], kinds: &[Kind]) -> bool
    ensures { IsTrue result ↔ AllZip IsFieldOf kinds.now fields.now }
{
    if fields.len() != kinds.len() {
        return false;
    }
    for at in 0..fields.len() {
        if !is_of_kind(&fields[at], kinds[at]) {
            return false;
        }
    }
    true
}

// Whether a field is absent or of a kind.
fn is_of_kind(field: &Field, kind: Kind) -> bool
    ensures { IsTrue result ↔ IsFieldOf kind field.now }
{
    match field {
        Field::Absent => true,
        Field::Bool(_) => matches!(kind, Kind::Bool),
        Field::Int(number) => is_operand(kind, *number),
        Field::Text(text) => matches!(kind, Kind::Text) && is_traceable(text.as_bytes()),
    }
}

// Whether a kind is one of numbers.
fn is_number(kind: Kind) -> bool
    ensures { result ≡ is_integer kind }
{
    !matches!(kind, Kind::Bool | Kind::Text)
}

// Whether a number is one of a kind.
fn is_operand(kind: Kind, number: i128) -> bool
    ensures { result ≡ (is_integer kind && is_within kind number) }
{
    let (least, most) = range(kind);
    is_number(kind) && least <= number && number <= most
}

// Whether a trace line can tell a text: it is UTF-8, not empty, not the `#` of an absent field, and in one line.
fn is_traceable(text: &[u8]) -> bool
    ensures { IsTrue result ↔ IsTraceableText text.now }
{
    !text.is_empty()
        && text != b"#".as_slice()
        && !text.contains(&13)
        && !text.contains(&10)
        && str::from_utf8(text).is_ok()
}
