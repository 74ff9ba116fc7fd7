//! The law, about definitions alone.

ghost use Rattle.lola_front_law.specs.PlanTexts.{AreInUtf8};

/// The text literals of a plan are in UTF-8, whatever text it was compiled from: each stands in a token of the text, whose bytes are
/// in UTF-8, and an escape stands for one byte of ASCII.
pub fn plan_texts_are_utf8()
    ensures { AreInUtf8 }
{}
