//! Lines that are put to a sink.
ghost use Rattle.lola_model.specs.Trace.{trace_line};
ghost use Rattle.lola_monitor_run.specs.Running.{Puts};

use crate::stop::Stop;
use lola_model::journal::Entry;
use lola_port::Sink;
use lola_report::trace::trace_line;
use lola_value::text::Text;
use std::alloc::Global;

/// Puts a text, unless it is empty.
pub fn put_text<K: Sink>(text: &[u8], out: &mut K) -> Result<(), Stop>
    ensures { Puts result text.now (K.state out.old) (K.state out.new) }
{
    if text.is_empty() {
        return Ok(());
    }
    out.put(text)?;
    Ok(())
}

/// Puts the line of an entry to the trace, made in a text that is kept. A row with a field to be quoted takes memory of its own
/// while it is made.
pub fn put_entry<T: Sink>(
    alloc: Global,
    entry: &Entry,
    line: &mut Text,
    trace: &mut T,
) -> Result<(), Stop>
    ensures { Puts result (trace_line entry.now) (T.state trace.old) (T.state trace.new) }
{
    line.clear();
    trace_line(alloc, entry, line)?;
    put_text(line.as_bytes(), trace)
}
