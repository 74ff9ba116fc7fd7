//! The parts of an expression that read, and what is done with each.

ghost use Rattle.std.specs.Prelude.{Bool, IsTrue, OnOk};
ghost use Rattle.lola_model.specs.declared.part.ReadPart.{ReadPart as PartValue};

use crate::expr::Access;

/// A part of an expression that reads.
#[derive(Clone, Copy)]
pub enum ReadPart {
    /// An access of a stream.
    Read {
        /// The byte of the specification at which a refusal of it stands.
        at: u32,
        stream: u32,
        access: Access,
    },
    /// A window.
    Window {
        /// The byte of the specification at which a refusal of it stands.
        at: u32,
        window: u32,
    },
}

/// What is done with each part that reads, at a target to which all are put one after another.
pub trait PartVisitor {
    /// Where parts are put.
    type Target;

    /// Why a part could not be put.
    type Error;

    // That it can take parts.
    ghost ready: { Self → Type 0 };

    // The parts that it can take.
    ghost may: { PartValue → Bool };

    // What a part makes of the target.
    ghost takes: { Self → PartValue → Self.Target → Self.Target → Type 0 };

    /// Takes one part.
    fn visit(&self, part: ReadPart, target: &mut Self::Target) -> Result<(), Self::Error>
        requires ready { ready self.now }
        requires part { IsTrue (may part) }
        ensures { OnOk result (takes self.now part target.old target.new) };
}
