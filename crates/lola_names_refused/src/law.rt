//! The law, about definitions alone.

ghost use Rattle.lola_names_refused.specs.Law.{MeansFirstDeclaration};

/// A name means what its first declaration says. (Later declarations of the name are refused.)
pub fn first_declaration()
    ensures { MeansFirstDeclaration }
{}
