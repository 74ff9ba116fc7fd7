//! The graph of a specification: an edge for each access of a spawn or an eval clause.

ghost use Rattle.std.specs.Prelude.{◌≡◌, ◌++◌, [], ◌∷◌, ◌+◌, ◌*◌, ◌<◌, ◌≤◌, IsTrue, IfOk, OnOk, length, pos, slice_get};
ghost use Rattle.std.specs.List.{list_all};
ghost use Rattle.lola_model.specs.Accepted.{IsSpecInRange};
ghost use Rattle.lola_model.specs.Graph.{weight_of, edge_to, window_edge, clause_reads, to_spawn, edges_from, edges_of};
ghost use Rattle.lola_graph.specs.Readable.{stream_edges, part_reads, is_small_access, is_readable_part, is_readable_clause, is_readable_stream, is_readable_window};
ghost use Rattle.lola_graph.specs.Small.{HasSmallOffsets, is_small_graph};

use lola_model::expr::Access;
use lola_model::graph::{Edge, Edges};
use lola_model::part::{PartVisitor, ReadPart};
use lola_model::spec::{Clause, Spec, Stream, WindowSpec};
use lola_model::walk::visit_clause;
use lola_value::text::Memory;
use std::alloc::Global;

/// The weight of an access: -k for an offset by k, else 0.
fn weight(access: Access) -> i32
    requires { IsTrue (is_small_access access) }
    ensures { result ≡ weight_of access }
{
    match access {
        Access::Offset(k) => -(k as i32),
        _ => 0,
    }
}

/// Puts an edge to a stream's eval clause or input.
fn put_edge(edges: &mut Edges, from: u32, stream: u32, weight: i32) -> Result<(), Memory>
    requires { stream < 1024 }
    ensures { OnOk result (edges.new ≡ edges.old ++ edge_to from stream weight ∷ []) }
{
    edges.push(Edge {
        from,
        to: 2 * stream,
        weight,
    })
}

/// The window of a number, if there is one.
fn window_at(windows: &[WindowSpec], window: u32) -> Option<WindowSpec>
    ensures { result ≡ slice_get windows.now window }
{
    windows.get(window as usize).copied()
}

/// Puts an edge to the target of a window.
fn put_window(
    edges: &mut Edges,
    windows: &[WindowSpec],
    from: u32,
    window: u32,
) -> Result<(), Memory>
    requires { IsTrue (list_all is_readable_window windows.now) }
    ensures { OnOk result (edges.new ≡ edges.old ++ window_edge from (slice_get windows.now window)) }
{
    match window_at(windows, window) {
        None => Ok(()),
        Some(spec) => put_edge(edges, from, spec.target, 0),
    }
}

// What is put of a clause: an edge for each access.
#[derive(Drop)]
struct Reads<'a> {
    windows: &'a [WindowSpec],
    // The node that reads.
    from: u32,
}

impl<'a> PartVisitor for Reads<'a> {
    type Target = Edges;

    type Error = Memory;

    ghost ready = { λ reads. IsTrue (list_all is_readable_window reads.windows.now) };

    ghost may = { is_readable_part };

    ghost takes = { λ reads part old new. new ≡ old ++ part_reads reads.windows.now reads.from part };

    fn visit(&self, part: ReadPart, edges: &mut Edges) -> Result<(), Memory> {
        match part {
            ReadPart::Read { stream, access, .. } => put_edge(
                edges,
                self.from,
                stream,
                weight(access),
            ),
            ReadPart::Window { window, .. } => put_window(edges, self.windows, self.from, window),
        }
    }
}

/// Puts an edge for each access of a clause, if there is one.
fn put_clause(
    edges: &mut Edges,
    windows: &[WindowSpec],
    from: u32,
    clause: &Option<Clause>,
) -> Result<(), Memory>
    requires windows { IsTrue (list_all is_readable_window windows.now) }
    requires clause { IsTrue (is_readable_clause clause.now) }
    ensures { OnOk result (edges.new ≡ edges.old ++ clause_reads windows.now from clause.now) }
{
    visit_clause(&Reads { windows, from }, clause, edges)?;
    Ok(())
}

/// Puts an edge from a stream's eval clause to its spawn clause, if it has one.
fn put_spawn(edges: &mut Edges, stream: u32, spawn: &Option<Clause>) -> Result<(), Memory>
    requires { stream < 1024 }
    ensures { OnOk result (edges.new ≡ edges.old ++ to_spawn stream spawn.now) }
{
    match spawn {
        None => Ok(()),
        Some(_) => edges.push(Edge {
            from: 2 * stream,
            to: 2 * stream + 1,
            weight: 0,
        }),
    }
}

/// Puts all edges from the nodes of a stream.
fn put_stream(
    edges: &mut Edges,
    windows: &[WindowSpec],
    number: u32,
    stream: &Stream,
) -> Result<(), Memory>
    requires windows { IsTrue (list_all is_readable_window windows.now) }
    requires number { number < 1024 }
    requires stream { IsTrue (is_readable_stream stream.now) }
    ensures { OnOk result (edges.new ≡ edges.old ++ stream_edges windows.now number stream.now) }
{
    put_spawn(edges, number, &stream.spawn)?;
    put_clause(edges, windows, 2 * number + 1, &stream.spawn)?;
    put_clause(edges, windows, 2 * number, &stream.eval)
}

/// Puts all edges from the nodes of streams, which are numbered from 0.
fn put_streams(edges: &mut Edges, windows: &[WindowSpec], streams: &[Stream]) -> Result<(), Memory>
    requires windows { IsTrue (list_all is_readable_window windows.now) }
    requires count { length streams.now ≤ 1024 }
    requires streams { IsTrue (list_all is_readable_stream streams.now) }
    ensures { OnOk result (edges.new ≡ edges.old ++ edges_from windows.now 0 streams.now) }
{
    let mut number = 0;
    for stream in streams {
        put_stream(edges, windows, number, stream)?;
        number += 1;
    }
    Ok(())
}

/// The graph of a specification: an edge for each access of a spawn or an eval clause, and one from
/// each stream's eval clause to its spawn clause.
pub fn edges(alloc: Global, spec: &Spec) -> Result<Edges, Memory>
    requires numbers { IsSpecInRange spec.now }
    requires streams { length spec.now.streams ≤ 1024 }
    requires offsets { HasSmallOffsets spec.now }
    ensures all { IfOk result (λ edges. edges ≡ edges_of spec.now) }
    ensures small { IfOk result (λ edges. IsTrue (is_small_graph edges)) }
{
    let mut edges = Edges::create(alloc);
    put_streams(&mut edges, spec.windows.as_slice(), spec.streams.as_slice())?;
    Ok(edges)
}
