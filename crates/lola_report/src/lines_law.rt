//! Laws of the lines: what the texts that the calls append have in common.

ghost use Rattle.std.specs.Prelude.{◌≡◌, [], ◌∷◌, IsTrue, slice_get};
ghost use Rattle.std.specs.List.{list_all};
ghost use Rattle.lola_model.specs.Trace.{trace_line};
ghost use Rattle.lola_report.specs.Ends.{end_text};
ghost use Rattle.lola_report.specs.Lines.{IsLine, is_plain, has_plain_name, is_plain_end};
ghost use Rattle.lola_report.specs.Verdicts.{HasVerdict, verdict_text, shown_lines};

use crate::end::EndLine;
use lola_model::journal::Entry;
use lola_model::plan::Plan;
use lola_value::text::{Field, Fields};

/// A value that has a verdict line has it alone, where outputs are shown too.
pub fn one_verdict(_plan: &Plan, _stream: u32, _time: u64, _params: &Fields, _value: &Field)
    requires { HasVerdict (slice_get _plan.now.spec.streams _stream) _value.now }
    ensures { shown_lines (slice_get _plan.now.spec.streams _stream) _time _params.now _value.now
        ≡ verdict_text (slice_get _plan.now.spec.streams _stream) _time _params.now _value.now ∷ [] }
{}

/// A verdict line ends with its one LF, whatever the texts in it.
pub fn verdict_is_line(_plan: &Plan, _stream: u32, _time: u64, _params: &Fields, _value: &Field)
    requires shown { HasVerdict (slice_get _plan.now.spec.streams _stream) _value.now }
    requires name { IsTrue (has_plain_name (slice_get _plan.now.spec.streams _stream)) }
    ensures { IsLine (verdict_text (slice_get _plan.now.spec.streams _stream) _time _params.now _value.now) }
{}

/// The line of an entry whose texts have no LF ends with its one LF.
pub fn entry_is_line(_entry: &Entry)
    requires { IsTrue (list_all is_plain _entry.now.row.fields) }
    ensures { IsLine (trace_line _entry.now) }
{}

/// An end line ends with its one LF.
pub fn end_is_line(_line: &EndLine)
    requires { IsTrue (is_plain_end _line.now) }
    ensures { IsLine (end_text _line.now) }
{}
