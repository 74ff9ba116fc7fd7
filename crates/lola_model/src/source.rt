//! How a source of rows can end before its bytes do.

/// Why a source ends at a line that is no row. The kinds are numbered from 1 in this order; a
/// source ends at its first such line, and the rows before it are its rows.
#[derive(Clone, Copy)]
pub enum MalformedKind {
    /// No line at all, not one time column, an input named twice, or a second byte order mark.
    BadHeading = 1,
    /// A line of another number of fields than the heading.
    FieldCount,
    /// A time field that is no time.
    BadTime,
    /// A field that is no value of its input's kind.
    BadValue,
    /// A line that is not UTF-8, or one behind the heading that begins with a byte order mark.
    BadText,
    /// A carriage return that is not directly before the line's end.
    BareCr,
    /// More than 65,536 bytes in a line.
    RowTooLong,
    /// A row whose number is above the most that the reader takes.
    TooManyRows,
}
