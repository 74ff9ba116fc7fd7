//! The laws, about definitions alone.

ghost use Rattle.lola_front_law.specs.Planned.{FindsBounds, FindsLayers, FindsPacings};

/// A specification whose names are resolved, and whose written rates are rates, has a pacing of each clause, or a refusal for them:
/// normal forms, leaves, least rates and greatest common divisors are there for all that is asked of them.
pub fn each_is_paced()
    ensures { FindsPacings }
{}

/// Each graph of a specification has layers, or a least stream on a closed walk of weight 0.
pub fn each_graph_is_layered()
    ensures { FindsLayers }
{}

/// Where each window has panes, kept values and panes are there as a plan has to have them.
pub fn each_is_bounded()
    ensures { FindsBounds }
{}
