//! The first refusal of names.

ghost use Rattle.std.specs.Prelude.{◌≡◌, ◌++◌, ◌∷◌, [], OnOk, IfOk, flat_map};
ghost use Rattle.lola_model.specs.Refusals.{first_of};
ghost use Rattle.lola_names_refused.specs.Noted.{Finds};
ghost use Rattle.lola_names_refused.specs.Refused.{refusals_of, too_many, input_places, stream_places, places_of};

use crate::declaring::names;
use crate::uses::all_uses;
use lola_model::refusals::Refusals;
use lola_model::spec::Places;
use lola_parser_grammar::declarations::{Ast, Declaration};
use lola_parser_grammar::literals::Typed;
use lola_value::front::{Code, Refusal};
use lola_value::text::Memory;
use std::alloc::Global;

/// Notes the first behind the most that there may be.
fn note_beyond(most: usize, places: &[u32], found: &mut Refusals)
    ensures { Finds (too_many most places.now) found.old found.new }
{
    if let Some(at) = places.get(most) {
        found.note(Code::TooMany, *at);
    }
}

/// Puts the places of names behind others.
fn put_places(items: &[Typed], places: &mut Places) -> Result<(), Memory>
    ensures { OnOk result (places.new ≡ places.old ++ places_of items.now) }
{
    for item in items {
        places.push(item.name.at)?;
    }
    Ok(())
}

fn put_inputs(declaration: &Declaration, places: &mut Places) -> Result<(), Memory>
    ensures { OnOk result (places.new ≡ places.old ++ input_places declaration.now) }
{
    match declaration {
        Declaration::Inputs(x) => put_places(x.inputs.as_slice(), places),
        Declaration::Constant(_) | Declaration::Output(_) | Declaration::Trigger(_) => Ok(()),
    }
}

fn put_streams(declaration: &Declaration, places: &mut Places) -> Result<(), Memory>
    ensures { OnOk result (places.new ≡ places.old ++ stream_places declaration.now) }
{
    match declaration {
        Declaration::Inputs(x) => put_places(x.inputs.as_slice(), places),
        Declaration::Constant(_) => Ok(()),
        Declaration::Output(x) => places.push(x.name.at),
        Declaration::Trigger(x) => places.push(x.when.at),
    }
}

/// Where inputs are declared.
fn inputs_at(alloc: Global, declarations: &[Declaration]) -> Result<Places, Memory>
    ensures { IfOk result (λ places. places ≡ flat_map input_places declarations.now) }
{
    let mut places = Places::create(alloc);
    for declaration in declarations {
        put_inputs(declaration, &mut places)?;
    }
    Ok(places)
}

/// Where streams are declared.
fn streams_at(alloc: Global, declarations: &[Declaration]) -> Result<Places, Memory>
    ensures { IfOk result (λ places. places ≡ flat_map stream_places declarations.now) }
{
    let mut places = Places::create(alloc);
    for declaration in declarations {
        put_streams(declaration, &mut places)?;
    }
    Ok(places)
}

/// The 65th input, if there is one.
fn too_many_inputs(
    alloc: Global,
    declarations: &[Declaration],
    found: &mut Refusals,
) -> Result<(), Memory>
    ensures { OnOk result (Finds (too_many 64 (flat_map input_places declarations.now)) found.old found.new) }
{
    let places = inputs_at(alloc, declarations)?;
    note_beyond(64, places.as_slice(), found);
    Ok(())
}

/// The 1,025th stream, if there is one.
fn too_many_streams(
    alloc: Global,
    declarations: &[Declaration],
    found: &mut Refusals,
) -> Result<(), Memory>
    ensures { OnOk result (Finds (too_many 1024 (flat_map stream_places declarations.now)) found.old found.new) }
{
    let places = streams_at(alloc, declarations)?;
    note_beyond(1024, places.as_slice(), found);
    Ok(())
}

/// Notes all refusals of names.
fn note_all(alloc: Global, declarations: &[Declaration], found: &mut Refusals) -> Result<(), Memory>
    ensures { OnOk result (Finds (refusals_of declarations.now) found.old found.new) }
{
    let names = names(alloc, declarations, found)?;
    too_many_inputs(alloc, declarations, found)?;
    too_many_streams(alloc, declarations, found)?;
    all_uses(alloc, &names, declarations, found)
}

/// The first refusal of the names of a specification, if there is one: by place, and at one place by code.
pub fn name_refusal(alloc: Global, ast: &Ast) -> Result<Option<Refusal>, Memory>
    ensures { IfOk result (λ refusal. refusal ≡ first_of (refusals_of ast.now)) }
{
    let mut found = Refusals::none();
    note_all(alloc, ast.as_slice(), &mut found)?;
    Ok(found.first())
}
