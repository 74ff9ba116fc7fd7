//! The nodes that each node reads in the same step.

ghost use Rattle.std.specs.Prelude.{List, ◌≡◌, ◌≤◌, ◌<◌, ◌++◌, [], ◌∷◌, IsTrue, IfOk, OnOk, length, replicate, slice_set};
ghost use Rattle.lola_model.specs.declared.graph.Edge.{Edge as EdgeValue};
ghost use Rattle.lola_model.specs.Nodes.{node_count as node_count_of};
ghost use Rattle.lola_graph.specs.Paths.{AreReads, read_by};
ghost use Rattle.lola_graph.specs.Small.{is_small_graph};

use crate::nodes::{is_within_step, node_count};
use lola_model::graph::Edge;
use lola_value::list::ListOf;
use lola_value::text::Memory;
use std::alloc::Global;

/// Some nodes.
pub type Nodes = ListOf<u32>;

/// So many lists without a node.
fn empty_lists(alloc: Global, count: u32) -> Result<Vec<Nodes>, Memory>
    ensures { IfOk result (λ lists. lists.items ≡ replicate count []) }
{
    let mut lists = Vec::new(alloc);
    for _ in 0..count {
        lists.push(Nodes::create(alloc))?;
    }
    Ok(lists)
}

/// Puts a node into the list of another.
fn put(lists: &mut [Nodes], from: u32, to: u32) -> Result<(), Memory>
    requires { from < length lists.old }
    ensures { OnOk result (lists.new ≡ slice_set lists.old from (read_by lists.old from ++ to ∷ [])) }
{
    lists[from as usize].push(to)
}

/// Puts the read of an edge into the lists, if it is one within a step.
fn put_edge(edge: &Edge, lists: &mut [Nodes]) -> Result<(), Memory>
    requires { edge.now.from < length lists.old }
    ensures { OnOk result ((edges : List EdgeValue) → AreReads edges lists.old → AreReads (edges ++ edge.now ∷ []) lists.new) }
{
    if is_within_step(edge) {
        put(lists, edge.from, edge.to)?;
        return Ok(());
    }
    Ok(())
}

/// Puts the reads of all edges into empty lists.
fn put_edges(edges: &[Edge], lists: &mut [Nodes]) -> Result<(), Memory>
    requires low { node_count_of edges.now ≤ length lists.old }
    requires empty { AreReads [] lists.old }
    ensures { OnOk result (AreReads edges.now lists.new) }
{
    for edge in edges {
        put_edge(edge, lists)?;
    }
    Ok(())
}

/// The lists of the nodes that each node of a graph reads in the same step.
pub fn lists_of(alloc: Global, edges: &[Edge]) -> Result<Vec<Nodes>, Memory>
    requires { IsTrue (is_small_graph edges.now) }
    ensures reads { IfOk result (λ lists. AreReads edges.now lists.items) }
    ensures count { IfOk result (λ lists. length lists.items ≡ node_count_of edges.now) }
{
    let mut lists = empty_lists(alloc, node_count(edges))?;
    put_edges(edges, &mut lists)?;
    Ok(lists)
}
