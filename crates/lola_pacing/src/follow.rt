//! The streams that a search for leaves follows: those of direct and offset accesses.

ghost use Rattle.std.specs.Prelude.{◌≡◌, ◌++◌, true, IfOk, OnOk, map};
ghost use Rattle.lola_model.specs.Leaves.{followed_by, followed_in, is_end as is_end_stream, onward};
ghost use Rattle.lola_pacing.specs.Reading.{followed_part};

use crate::numbers::StreamNumbers;
use lola_model::expr::Access;
use lola_model::part::{PartVisitor, ReadPart};
use lola_model::spec::{Clause, Sort, Spec, Stream};
use lola_model::walk::visit_clause;
use lola_value::text::Memory;
use std::alloc::Global;

/// Puts a stream that is accessed, if the access is followed.
fn put_stream(list: &mut StreamNumbers, stream: u32, access: Access) -> Result<(), Memory>
    ensures { OnOk result (list.new ≡ list.old ++ followed_by access stream) }
{
    match access {
        Access::Direct => list.push(stream),
        Access::Offset(_) => list.push(stream),
        Access::Get => Ok(()),
        Access::Hold => Ok(()),
    }
}

// What is put of a clause: the streams that are followed.
struct Followed;

impl PartVisitor for Followed {
    type Target = StreamNumbers;

    type Error = Memory;

    ghost ready = { λ _. Unit {0} };

    ghost may = { λ _. true };

    ghost takes = { λ _ part old new. new ≡ old ++ followed_part part };

    fn visit(&self, part: ReadPart, list: &mut StreamNumbers) -> Result<(), Memory> {
        match part {
            ReadPart::Read { stream, access, .. } => put_stream(list, stream, access),
            ReadPart::Window { .. } => Ok(()),
        }
    }
}

/// The streams that are followed from a clause.
pub fn followed_from(alloc: Global, clause: &Option<Clause>) -> Result<StreamNumbers, Memory>
    ensures { IfOk result (λ list. list ≡ followed_in clause.now) }
{
    let mut list = StreamNumbers::create(alloc);
    visit_clause(&Followed, clause, &mut list)?;
    Ok(list)
}

/// Whether a search for leaves ends at a stream: at an input, and where the eval clause has a pacing of its own.
pub fn is_end(stream: &Stream) -> bool
    ensures { result ≡ is_end_stream stream.now }
{
    match stream.sort {
        Sort::Input => true,
        _ => match &stream.eval {
            None => false,
            Some(clause) => clause.pace.is_some(),
        },
    }
}

/// The streams that are followed behind a stream.
fn onward_of(alloc: Global, stream: &Stream) -> Result<StreamNumbers, Memory>
    ensures { IfOk result (λ list. list ≡ onward stream.now) }
{
    if is_end(stream) {
        return Ok(StreamNumbers::create(alloc));
    }
    let list = followed_from(alloc, &stream.eval)?;
    Ok(list)
}

/// The streams that are followed behind each stream of a specification.
pub fn lists_of(alloc: Global, spec: &Spec) -> Result<Vec<StreamNumbers>, Memory>
    ensures { IfOk result (λ lists. lists.items ≡ map onward spec.now.streams) }
{
    let mut lists = Vec::new(alloc);
    for stream in spec.streams.as_slice() {
        lists.push(onward_of(alloc, stream)?)?;
    }
    Ok(lists)
}
