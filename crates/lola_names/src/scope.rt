//! Where an expression stands.

use crate::targets::TargetTable;
use lola_model::spec::Part;
use lola_parser_grammar::declarations::Declaration;

/// Where an expression stands: in a clause of a stream, in the scope of these names and parameters.
#[derive(Clone, Copy)]
pub struct Scope<'a> {
    pub declarations: &'a [Declaration],
    /// The names of the specification.
    pub targets: &'a TargetTable,
    /// The stream's parameters, which hide other names.
    pub parameters: &'a TargetTable,
    /// The number of the stream.
    pub stream: u32,
    pub clause: Part,
}
