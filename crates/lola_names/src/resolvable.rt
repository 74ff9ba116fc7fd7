//! The law, about definitions alone.

ghost use Rattle.lola_names.specs.Resolvable.{ResolvesEach};

/// Each list of declarations is resolved to a specification, whatever is refused of its names.
pub fn each_list_is_resolved()
    ensures { ResolvesEach }
{}
