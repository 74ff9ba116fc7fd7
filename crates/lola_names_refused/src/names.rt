//! What names mean.

use crate::table::NameTable;

/// What a name means.
#[derive(Clone, Copy)]
pub enum Meaning {
    /// An input.
    Input,
    /// A constant.
    Constant,
    /// An output with so many parameters.
    Output(usize),
    /// A parameter of the stream whose clause the name stands in.
    Parameter,
}

/// Names with their meanings.
pub type Names = NameTable<Meaning>;
