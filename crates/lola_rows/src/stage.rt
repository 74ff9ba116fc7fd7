//! How far a reader is.

/// What a reader looks at next.
#[derive(Clone, Copy)]
pub enum Section {
    /// The first bytes of the source, which may be a byte order mark.
    Start,
    /// The heading.
    Heading,
    /// A row.
    Rows,
    /// Nothing: the last line had no line feed, and was taken.
    Over,
}
