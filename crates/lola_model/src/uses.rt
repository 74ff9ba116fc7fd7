//! The parts of expressions at which the pacing of a clause may be refused.

/// A part of an expression at which something may be refused. Both name the place of the name first.
#[derive(Clone, Copy)]
pub enum Use {
    /// A direct access of the stream of this number.
    OfStream(u32, u32),
    /// The window of this number.
    OfWindow(u32, u32),
}
