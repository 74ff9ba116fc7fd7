//! The greatest offsets of the accesses of a specification.

ghost use Rattle.std.specs.Prelude.{◌≡◌, [], ◌∷◌, true, max, nat_eq, if◌then◌else◌};
ghost use Rattle.lola_model.specs.Bounds.{offset_by, offset_onto, greatest_offset};
ghost use Rattle.lola_model.specs.Parts.{listed_streams};
ghost use Rattle.lola_bounds.specs.Offsets.{IsRaised, part_offset};

use lola_model::expr::Access;
use lola_model::part::{PartVisitor, ReadPart};
use lola_model::spec::Stream;
use lola_model::walk::visit_streams;
use std::convert::Infallible;

/// Raises the greatest offset of a stream, if it has a place among these.
fn raise(greatest: &mut [u32], stream: u32, offset: u32)
    ensures { IsRaised (λ n. if nat_eq stream n then offset ∷ [] else []) greatest.old greatest.new }
{
    let place = stream as usize;
    if place < greatest.len() {
        greatest[place] = greatest[place].max(offset);
    }
}

/// Raises the greatest offset of a stream by an access of it.
fn raise_by_access(greatest: &mut [u32], stream: u32, access: Access)
    ensures { IsRaised (λ n. if nat_eq stream n then offset_by access else []) greatest.old greatest.new }
{
    match access {
        Access::Offset(offset) => raise(greatest, stream, offset),
        _ => {}
    }
}

// What is raised by a part that reads: the greatest offset onto its stream.
struct EachStream;

impl PartVisitor for EachStream {
    type Target = Vec<u32>;

    type Error = Infallible;

    ghost ready = { λ _. Unit {0} };

    ghost may = { λ _. true };

    ghost takes = { λ _ part old new. IsRaised (λ n. part_offset n part) old.items new.items };

    fn visit(&self, part: ReadPart, greatest: &mut Vec<u32>) -> Result<(), Infallible> {
        match part {
            ReadPart::Read { stream, access, .. } => raise_by_access(greatest, stream, access),
            ReadPart::Window { .. } => {}
        }
        Ok(())
    }
}

/// Raises a greatest offset by an access.
fn raise_one(greatest: &mut u32, access: Access)
    ensures { greatest.new ≡ max greatest.old (greatest_offset (offset_by access)) }
{
    match access {
        Access::Offset(offset) => *greatest = (*greatest).max(offset),
        _ => {}
    }
}

// What is raised by a part that reads: the greatest offset onto one stream, if it reads that.
#[derive(Drop)]
struct OneStream {
    stream: u32,
}

impl PartVisitor for OneStream {
    type Target = u32;

    type Error = Infallible;

    ghost ready = { λ _. Unit {0} };

    ghost may = { λ _. true };

    ghost takes = { λ one part old new. new ≡ max old (greatest_offset (part_offset one.stream part)) };

    fn visit(&self, part: ReadPart, greatest: &mut u32) -> Result<(), Infallible> {
        match part {
            ReadPart::Read { stream, access, .. } => {
                if stream == self.stream {
                    raise_one(greatest, access);
                }
            }
            ReadPart::Window { .. } => {}
        }
        Ok(())
    }
}

/// Raises the greatest offsets by those of all streams.
pub(crate) fn raise_by_streams(greatest: &mut Vec<u32>, streams: &[Stream])
    ensures { IsRaised (λ n. listed_streams (offset_onto n) streams.now) greatest.old.items greatest.new.items }
{
    match visit_streams(&EachStream, streams, greatest) {
        Ok(()) => {}
        Err(never) => match never {},
    }
}

/// The greatest offset onto a stream, 0 where there is none.
pub(crate) fn greatest_onto(stream: u32, streams: &[Stream]) -> u32
    ensures { result ≡ greatest_offset (listed_streams (offset_onto stream) streams.now) }
{
    let mut greatest = 0;
    match visit_streams(&OneStream { stream }, streams, &mut greatest) {
        Ok(()) => {}
        Err(never) => match never {},
    }
    greatest
}
