//! Streams that read themselves within a step.

ghost use Rattle.std.specs.Prelude.{◌≡◌, ◌<◌, ◌^◌, ◌/◌, [], IsTrue, IfOk, length};
ghost use Rattle.std.specs.Option.{option_map};
ghost use Rattle.lola_graph.specs.Cycle.{IsLeastOnCycle};
ghost use Rattle.lola_graph.specs.Paths.{AreWithin, IsLeastNode};
ghost use Rattle.lola_graph.specs.Small.{is_small_graph};

use crate::lists::{Nodes, lists_of};
use crate::search::reads_itself;
use lola_model::graph::Edges;
use lola_value::text::Memory;
use std::alloc::Global;

/// The least node that reads itself within a step, if there is one.
fn least_node(
    lists: &[Nodes],
    flags: &mut [bool],
    noted: &mut Vec<u32>,
) -> Result<Option<u32>, Memory>
    requires count { length lists.now < 2 ^ 32 }
    requires flags { length flags.old ≡ length lists.now }
    requires within { AreWithin lists.now }
    ensures { IfOk result (λ node. IsLeastNode lists.now node) }
{
    for node in 0..lists.len() as u32 {
        if reads_itself(lists, node, flags, noted)? {
            return Ok(Some(node));
        }
    }
    Ok(None)
}

/// The same, with the room that the search takes.
fn search(alloc: Global, lists: &[Nodes]) -> Result<Option<u32>, Memory>
    requires count { length lists.now < 2 ^ 32 }
    requires within { AreWithin lists.now }
    ensures { IfOk result (λ node. IsLeastNode lists.now node) }
{
    let mut flags = vec![in alloc; false; lists.len()]?;
    let mut noted = Vec::new(alloc);
    least_node(lists, &mut flags, &mut noted)
}

/// The stream of a node.
fn stream_of(node: Option<u32>) -> Option<u32>
    ensures { result ≡ option_map (λ n. n / 2) node }
{
    node.map(|n| n / 2)
}

/// The least stream that has a node on a closed walk of weight 0; none where there is none. Such a
/// stream would need its own value of a step to find that value, which RTLola refuses.
pub fn zero_cycle(alloc: Global, edges: &Edges) -> Result<Option<u32>, Memory>
    requires { IsTrue (is_small_graph edges.now) }
    ensures { IfOk result (λ stream. IsLeastOnCycle edges.now stream) }
{
    let lists = lists_of(alloc, edges.as_slice())?;
    let node = search(alloc, &lists)?;
    Ok(stream_of(node))
}
