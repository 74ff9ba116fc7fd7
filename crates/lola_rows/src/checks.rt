//! What is wrong with a line whatever it says.
ghost use Rattle.std.specs.Prelude.{◌≡◌};
ghost use Rattle.std.specs.List.{list_any};
ghost use Rattle.std.specs.Str.{is_utf8};
ghost use Rattle.lola_rows.specs.Line.{begins_with_mark};
ghost use Rattle.lola_rows.specs.Lines.{is_return};
ghost use Rattle.lola_rows.specs.Rows.{flaw_of_line};
ghost use Rattle.lola_rows.specs.Steps.{Tells};

use crate::fill::LONGEST_LINE;
use lola_model::source::MalformedKind;
use memchr::memchr;
use std::str::from_utf8;

/// Whether bytes begin with a byte order mark.
pub(crate) fn begins_with_mark(bytes: &[u8]) -> bool
    ensures { result ≡ begins_with_mark bytes.now }
{
    matches!(bytes, [0xEF, 0xBB, 0xBF, ..])
}

// Whether a carriage return is in a line.
fn has_return(text: &[u8]) -> bool
    ensures { result ≡ list_any is_return text.now }
{
    memchr(b'\r', text).is_some()
}

// Whether a line is UTF-8.
fn is_text(text: &[u8]) -> bool
    ensures { result ≡ is_utf8 text.now }
{
    from_utf8(text).is_ok()
}

/// Looks at a line of so many bytes, of which these are left without the carriage return before its line feed.
pub(crate) fn check_line(size: usize, text: &[u8]) -> Result<(), MalformedKind>
    ensures { Tells result (flaw_of_line (record { size = size; text = text.now })) }
{
    if size > LONGEST_LINE {
        return Err(MalformedKind::RowTooLong);
    }
    if has_return(text) {
        return Err(MalformedKind::BareCr);
    }
    if !is_text(text) {
        return Err(MalformedKind::BadText);
    }
    Ok(())
}
