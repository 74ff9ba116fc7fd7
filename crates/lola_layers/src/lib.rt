//! The layers of a graph without a closed walk of weight 0, in whose order a step is evaluated.
//!
//! Promised: a plan with this list has the layers that the definition asks of a plan.
#![tactic(auto)]

ghost use Rattle.std.specs.Prelude.{◌≡◌, ◌≤◌, ◌<◌, ◌+◌, ◌↔◌, ◌||◌, [], ◌∷◌, ℕ, List, Contains, IsTrue, IfOk, length, replicate, slice_index};
ghost use Rattle.lola_model.specs.Graph.{IsOnZeroWalk, IsLayer, layer_of};
ghost use Rattle.lola_model.specs.declared.graph.Edge.{Edge as EdgeValue};
ghost use Rattle.lola_model.specs.Nodes.{node_count as node_count_of};
ghost use Rattle.lola_graph.specs.Small.{is_small_graph};
ghost use Rattle.lola_layers.specs.Raised.{AreReached, AreFalling, IsRaised};

use lola_graph::nodes::{is_within_step, node_count};
use lola_model::graph::{Edge, Edges};
use lola_model::plan::Layers;
use lola_value::text::Memory;
use std::alloc::Global;

/// Whether one of two holds.
fn either(a: bool, b: bool) -> bool
    ensures { result ≡ (a || b) }
{
    a || b
}

/// Whether the node that is read is in a lower layer than the node that reads.
fn is_below(edge: &Edge, layers: &[u32]) -> bool
    requires from { edge.now.from < length layers.now }
    requires to { edge.now.to < length layers.now }
    ensures { IsTrue result ↔ (slice_index layers.now edge.now.to < slice_index layers.now edge.now.from) }
{
    layers[edge.to as usize] < layers[edge.from as usize]
}

/// One more than a layer.
fn above(layer: u32) -> u32
    requires { layer ≤ 2048 }
    ensures { result ≡ layer + 1 }
{
    layer + 1
}

/// Raises the layer of the node that reads above the layer of the node that is read in the same
/// step, and says whether it had to.
fn raise_one(edge: &Edge, layers: &mut [u32]) -> bool
    requires from { edge.now.from < length layers.old }
    requires to { edge.now.to < length layers.old }
    requires most { slice_index layers.old edge.now.to ≤ 2048 }
    ensures raised { IsRaised (edge.now ∷ []) layers.old layers.new result }
    ensures reached { (edges : List EdgeValue) → Contains edges edge.now → AreReached edges layers.old → AreReached edges layers.new }
{
    if !is_within_step(edge) {
        return false;
    }
    if is_below(edge, layers) {
        return false;
    }
    layers[edge.from as usize] = above(layers[edge.to as usize]);
    true
}

/// Does so along all edges.
fn raise(edges: &[Edge], layers: &mut [u32]) -> bool
    requires small { IsTrue (is_small_graph edges.now) }
    requires acyclic { (n : ℕ) → ¬ (IsOnZeroWalk edges.now n) }
    requires count { length layers.old ≡ node_count_of edges.now }
    requires reached { AreReached edges.now layers.old }
    ensures raised { IsRaised edges.now layers.old layers.new result }
    ensures reached { AreReached edges.now layers.new }
{
    let mut raised = false;
    for edge in edges {
        raised = either(raised, raise_one(edge, layers));
    }
    raised
}

/// Does so until no layer has to be raised. A round raises at least those nodes whose longest walk
/// is as long as there were rounds, so there are at most as many rounds as nodes.
fn settle(edges: &[Edge], layers: &mut [u32])
    requires small { IsTrue (is_small_graph edges.now) }
    requires acyclic { (n : ℕ) → ¬ (IsOnZeroWalk edges.now n) }
    requires count { length layers.old ≡ node_count_of edges.now }
    requires reached { AreReached edges.now layers.old }
    ensures falling { AreFalling edges.now layers.new }
    ensures reached { AreReached edges.now layers.new }
{
    loop {
        if !raise(edges, layers) {
            return;
        }
    }
}

/// A copy of layers.
fn copied(alloc: Global, layers: &[u32]) -> Result<Layers, Memory>
    ensures { IfOk result (λ copy. copy ≡ layers.now) }
{
    let mut copy = Layers::create(alloc);
    for layer in layers {
        copy.push(*layer)?;
    }
    Ok(copy)
}

/// The layers of a graph, found in room that has a 0 for each node.
fn settled(alloc: Global, edges: &[Edge], room: &mut [u32]) -> Result<Layers, Memory>
    requires small { IsTrue (is_small_graph edges.now) }
    requires acyclic { (n : ℕ) → ¬ (IsOnZeroWalk edges.now n) }
    requires room { room.old ≡ replicate (node_count_of edges.now) 0 }
    ensures each { IfOk result (λ layers. (n : ℕ) → IsLayer edges.now n (layer_of layers n)) }
    ensures count { IfOk result (λ layers. length layers ≡ node_count_of edges.now) }
{
    settle(edges, room);
    let layers = copied(alloc, room)?;
    Ok(layers)
}

/// The layer of each node: the number of edges of the longest walk of edges of weight 0 that begins
/// at it. The list ends with the greatest node that stands in an edge; past it each layer is 0.
pub fn layers(alloc: Global, edges: &Edges) -> Result<Layers, Memory>
    requires small { IsTrue (is_small_graph edges.now) }
    requires acyclic { (n : ℕ) → ¬ (IsOnZeroWalk edges.now n) }
    ensures each { IfOk result (λ layers. (n : ℕ) → IsLayer edges.now n (layer_of layers n)) }
    ensures count { IfOk result (λ layers. length layers ≡ node_count_of edges.now) }
{
    let edges = edges.as_slice();
    let mut room = vec![in alloc; 0; node_count(edges) as usize]?;
    settled(alloc, edges, &mut room)
}
