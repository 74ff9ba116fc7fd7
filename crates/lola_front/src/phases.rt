//! The phases that read: tokens, declarations, names, kinds.

ghost use Rattle.lola_front.specs.Front.{Fills, Reads, ResolvesText};

use crate::law::{filled_is_named, filled_is_typed};
use lola_lexer::cut::tokens;
use lola_model::spec::Spec;
use lola_names::law::{resolved_is_named, resolved_notes_constants, spelled_closes_are_spawned};
use lola_names::resolve;
use lola_parser::reading::specification;
use lola_parser_grammar::declarations::Ast;
use lola_types::full::check;
use lola_value::front::FrontEnd;
use std::alloc::Global;

/// The declarations that a text spells.
fn declarations(alloc: Global, bytes: &[u8]) -> Result<Ast, FrontEnd>
    ensures { Reads bytes.now result }
{
    let tokens = tokens(alloc, bytes)?;
    specification(alloc, bytes, &tokens)
}

/// The specification whose names they resolve to.
fn resolved(alloc: Global, bytes: &[u8]) -> Result<Spec, FrontEnd>
    ensures { ResolvesText bytes.now result }
{
    let ast = declarations(alloc, bytes)?;
    resolve(alloc, &ast)
}

/// The specification with its kinds filled in.
pub(crate) fn full(alloc: Global, bytes: &[u8]) -> Result<Spec, FrontEnd>
    ensures { Fills bytes.now result }
{
    spelled_closes_are_spawned();
    resolved_is_named();
    resolved_notes_constants();
    filled_is_named();
    filled_is_typed();
    let spec = resolved(alloc, bytes)?;
    check(alloc, &spec)
}
