//! A law of normal forms. It is a function that does nothing: what it ensures is the law.

ghost use Rattle.lola_pacing_normal.specs.Formulas.{HasOneNormalForm};

/// Formulas that imply each other have one and the same list of least sets, since its order is told
/// by the sets alone.
pub fn one_normal_form()
    ensures { HasOneNormalForm }
{}
