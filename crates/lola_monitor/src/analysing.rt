//! The report of a plan, with its last line.
ghost use Rattle.std.specs.Prelude.{◌≡◌, ◌≤◌, ◌<◌, filter, length, IfOk};
ghost use Rattle.lola_model.specs.Model.{is_input};
ghost use Rattle.lola_monitor.specs.Monitor.{analysis_text};

use lola_bounds::report::report;
use lola_model::plan::Plan;
use lola_report::end::{EndLine, end_line};
use lola_value::text::{Memory, Text};
use std::alloc::Global;

// The last line of an analysis. A plan of more windows than 32 bits number is answered with `Memory`.
fn last_line(plan: &Plan) -> Result<EndLine, Memory>
    requires { length plan.now.spec.streams ≤ 1024 }
    ensures { IfOk result (λ line. line ≡ EndLine.Analysed (length plan.now.spec.streams) (length plan.now.spec.windows)) }
{
    let windows = plan.spec.windows.as_slice().len();
    if windows > u32::MAX as usize {
        return Err(Memory);
    }
    Ok(EndLine::Analysed {
        streams: plan.spec.streams.as_slice().len() as u32,
        windows: windows as u32,
    })
}

/// What was found of a specification, and how many streams and windows it has.
pub fn analysis(alloc: Global, plan: &Plan) -> Result<Text, Memory>
    requires inputs { length (filter is_input plan.now.spec.streams) ≤ 64 }
    requires streams { length plan.now.spec.streams ≤ 1024 }
    ensures { IfOk result (λ text. text ≡ analysis_text plan.now) }
{
    let mut text = Text::from_bytes(alloc, b"")?;
    report(alloc, plan, &mut text)?;
    let line = last_line(plan)?;
    end_line(&line, &mut text)?;
    Ok(text)
}
