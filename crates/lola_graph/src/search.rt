//! Which nodes a node reads within a step, itself or over others.

ghost use Rattle.std.specs.Prelude.{◌≡◌, ◌<◌, [], ◌∷◌, ◌↔◌, IsTrue, IfOk, OnOk, length, Contains, ℕ};
ghost use Rattle.lola_graph.specs.Flags.{IsBlank, IsFlagged, Flags, FlagsReached};
ghost use Rattle.lola_graph.specs.Paths.{AreWithin, Reaches, read_by};

use crate::lists::Nodes;
use lola_value::text::Memory;

/// Takes all flags away.
fn clear(flags: &mut [bool])
    ensures { IsBlank flags.new }
{
    for i in 0..flags.len() {
        flags[i] = false;
    }
}

/// Flags a node, and notes it if it had no flag.
fn flag_one(node: u32, flags: &mut [bool], noted: &mut Vec<u32>) -> Result<(), Memory>
    requires { node < length flags.old }
    ensures { OnOk result (Flags (node ∷ []) flags.old noted.old.items flags.new noted.new.items) }
{
    if flags[node as usize] {
        return Ok(());
    }
    flags[node as usize] = true;
    noted.push(node)?;
    Ok(())
}

/// Flags nodes, and notes those that had no flag.
fn flag(nodes: &[u32], flags: &mut [bool], noted: &mut Vec<u32>) -> Result<(), Memory>
    requires { (n : ℕ) → Contains nodes.now n → n < length flags.old }
    ensures { OnOk result (Flags nodes.now flags.old noted.old.items flags.new noted.new.items) }
{
    for node in nodes {
        flag_one(*node, flags, noted)?;
    }
    Ok(())
}

/// Flags the nodes that a node itself reads, and notes those that had no flag.
fn flag_reads(
    lists: &[Nodes],
    node: u32,
    flags: &mut [bool],
    noted: &mut Vec<u32>,
) -> Result<(), Memory>
    requires node { node < length lists.now }
    requires flags { length flags.old ≡ length lists.now }
    requires within { AreWithin lists.now }
    ensures { OnOk result (Flags (read_by lists.now node) flags.old noted.old.items flags.new noted.new.items) }
{
    flag(lists[node as usize].as_slice(), flags, noted)
}

/// Flags all nodes that a node reads, itself or over others.
fn reach(
    lists: &[Nodes],
    start: u32,
    flags: &mut [bool],
    noted: &mut Vec<u32>,
) -> Result<(), Memory>
    requires start { start < length lists.now }
    requires flags { length flags.old ≡ length lists.now }
    requires within { AreWithin lists.now }
    requires blank { IsBlank flags.old }
    requires noted { noted.old.items ≡ [] }
    ensures { OnOk result (FlagsReached lists.now start flags.new) }
{
    flag_reads(lists, start, flags, noted)?;
    while let Some(node) = noted.pop() {
        flag_reads(lists, node, flags, noted)?;
    }
    Ok(())
}

/// Whether a node reads itself within a step.
pub fn reads_itself(
    lists: &[Nodes],
    node: u32,
    flags: &mut [bool],
    noted: &mut Vec<u32>,
) -> Result<bool, Memory>
    requires node { node < length lists.now }
    requires flags { length flags.old ≡ length lists.now }
    requires within { AreWithin lists.now }
    ensures { IfOk result (λ b. IsTrue b ↔ Reaches lists.now node node) }
{
    clear(flags);
    noted.clear();
    reach(lists, node, flags, noted)?;
    Ok(flags[node as usize])
}
