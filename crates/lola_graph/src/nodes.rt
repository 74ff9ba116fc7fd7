//! How many nodes a graph has, and which of its edges are reads within a step.

ghost use Rattle.std.specs.Prelude.{◌≡◌, ◌↔◌, pos, IsTrue};
ghost use Rattle.lola_model.specs.Nodes.{node_count as node_count_of};
ghost use Rattle.lola_graph.specs.Small.{is_small_graph};

use lola_model::graph::Edge;

/// One more than the greatest node that stands in an edge, and 0 where there are no edges.
pub fn node_count(edges: &[Edge]) -> u32
    requires { IsTrue (is_small_graph edges.now) }
    ensures { result ≡ node_count_of edges.now }
{
    let mut count = 0;
    for edge in edges {
        count = count.max((edge.from + 1).max(edge.to + 1));
    }
    count
}

/// Whether the node that is read is read at the step itself: no value that lies back by an offset.
pub fn is_within_step(edge: &Edge) -> bool
    ensures { IsTrue result ↔ (edge.now.weight ≡ pos 0) }
{
    edge.weight == 0
}
