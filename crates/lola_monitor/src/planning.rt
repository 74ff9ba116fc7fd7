//! The plan of a specification.
ghost use Rattle.std.specs.Prelude.{◌≡◌, ◌<◌};
ghost use Rattle.lola_monitor.specs.Outcomes.{PlansName, PlansText, without_plan as without_plan_of};

use crate::call_end::{CallEnd, Unplanned};
use crate::stating::read_specification;
use lola_front::compile;
use lola_model::plan::Plan;
use lola_port::Shelf;
use lola_report::end::EndLine;
use lola_value::front::FrontEnd;
use std::alloc::Global;

// The plan of a text.
pub(crate) fn plan_of(alloc: Global, bytes: &[u8]) -> Result<Plan, Unplanned>
    ensures { PlansText result bytes.now }
{
    match compile(alloc, bytes) {
        Ok(plan) => Ok(plan),
        Err(FrontEnd::Refused(refusal)) => Err(Unplanned::Refused(refusal)),
        Err(FrontEnd::Memory) => Err(Unplanned::Memory),
    }
}

/// Fetches a specification, reads it, gives its source back, and compiles it.
pub fn read_plan<F: Shelf>(alloc: Global, shelf: &mut F, name: &str) -> Result<Plan, Unplanned>
    requires { (F.state shelf.old).out < 65536 }
    ensures { PlansName result name.now (F.state shelf.old) (F.state shelf.new) }
{
    match read_specification(alloc, shelf, name) {
        Ok(specification) => Ok(specification.plan),
        Err(end) => Err(end),
    }
}

/// How a call ends without a plan.
pub fn without_plan(end: Unplanned) -> CallEnd
    ensures { result ≡ without_plan_of end }
{
    match end {
        Unplanned::Unreadable => CallEnd::Line(EndLine::UnreadableSpecification),
        Unplanned::Refused(refusal) => CallEnd::Line(EndLine::Refused(refusal)),
        Unplanned::Memory => CallEnd::Memory,
    }
}
