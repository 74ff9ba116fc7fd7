//! What is declared: the names, and those that are declared twice.

ghost use Rattle.std.specs.Prelude.{◌≡◌, [], OnOk, IfOk, is_some, map};
ghost use Rattle.lola_value.specs.declared.front.Code.TheVariants as code;
ghost use Rattle.lola_parser_grammar.specs.declared.literals.Typed.{Typed as TypedValue};
ghost use Rattle.lola_names_refused.specs.declared.names.Meaning.TheVariants as is;
ghost use Rattle.lola_names_refused.specs.Noted.{Finds};
ghost use Rattle.lola_names_refused.specs.Table.{meant, meaning_in, with_name};
ghost use Rattle.lola_names_refused.specs.Known.{declared, names_of, parameters_of, with_names, with_declarations};
ghost use Rattle.lola_names_refused.specs.Refused.{where_, repeated, repeated_parameters, parameters_in, repeats, all_repeats};

use crate::names::{Meaning, Names};
use lola_model::refusals::Refusals;
use lola_parser_grammar::declarations::Declaration;
use lola_parser_grammar::literals::{Name, Typed};
use lola_value::front::Code;
use lola_value::text::Memory;
use std::alloc::Global;

/// Notes a refusal, if this holds.
pub(crate) fn note_if(holds: bool, code: Code, at: u32, found: &mut Refusals)
    ensures { Finds (where_ holds code at) found.old found.new }
{
    if holds {
        found.note(code, at);
    }
}

/// A name is declared.
fn declare(
    name: &Name,
    meaning: Meaning,
    names: &mut Names,
    found: &mut Refusals,
) -> Result<(), Memory>
    ensures found { OnOk result (Finds (where_ (is_some (meaning_in names.old name.now.text)) code.Duplicate name.now.at) found.old found.new) }
    ensures names { OnOk result (names.new ≡ with_name names.old (name.now, meaning)) }
{
    let known = names.meaning(name.text.as_bytes()).is_some();
    note_if(known, Code::Duplicate, name.at, found);
    names.put(name, meaning)
}

/// Inputs are declared.
fn declare_inputs(inputs: &[Typed], names: &mut Names, found: &mut Refusals) -> Result<(), Memory>
    ensures found { OnOk result (Finds (repeated names.old (map (λ (t : TypedValue). (t.name, is.Input)) inputs.now)) found.old found.new) }
    ensures names { OnOk result (names.new ≡ with_names names.old (map (λ (t : TypedValue). (t.name, is.Input)) inputs.now)) }
{
    for input in inputs {
        declare(&input.name, Meaning::Input, names, found)?;
    }
    Ok(())
}

/// What a name means in the scope of parameters.
pub(crate) fn meaning(names: &Names, parameters: &Names, text: &[u8]) -> Option<Meaning>
    ensures { result ≡ meant parameters.now names.now text.now }
{
    match parameters.meaning(text) {
        None => names.meaning(text),
        Some(meaning) => Some(meaning),
    }
}

/// A parameter is declared, behind names and earlier parameters.
fn declare_parameter(
    name: &Name,
    names: &Names,
    own: &mut Names,
    found: &mut Refusals,
) -> Result<(), Memory>
    ensures found { OnOk result (Finds (where_ (is_some (meant own.old names.now name.now.text)) code.Duplicate name.now.at) found.old found.new) }
    ensures own { OnOk result (own.new ≡ with_name own.old (name.now, is.Parameter)) }
{
    let known = meaning(names, own, name.text.as_bytes()).is_some();
    note_if(known, Code::Duplicate, name.at, found);
    own.put(name, Meaning::Parameter)
}

/// The parameters of a stream are declared.
fn declare_parameters(
    parameters: &[Typed],
    names: &Names,
    own: &mut Names,
    found: &mut Refusals,
) -> Result<(), Memory>
    ensures { OnOk result (Finds (repeated_parameters names.now own.old (parameters_of parameters.now)) found.old found.new) }
{
    for parameter in parameters {
        declare_parameter(&parameter.name, names, own, found)?;
    }
    Ok(())
}

/// The parameters of a stream, as they stand in the scope of its clauses.
pub(crate) fn parameters(alloc: Global, parameters: &[Typed]) -> Result<Names, Memory>
    ensures { IfOk result (λ own. own ≡ with_names [] (parameters_of parameters.now)) }
{
    let mut own = Names::create(alloc);
    for parameter in parameters {
        own.put(&parameter.name, Meaning::Parameter)?;
    }
    Ok(own)
}

/// The names of a declaration are declared, and the parameters behind them.
fn declare_all(
    alloc: Global,
    declaration: &Declaration,
    names: &mut Names,
    found: &mut Refusals,
) -> Result<(), Memory>
    ensures found { OnOk result (Finds (repeats names.old declaration.now) found.old found.new) }
    ensures names { OnOk result (names.new ≡ with_names names.old (declared declaration.now)) }
{
    match declaration {
        Declaration::Inputs(x) => declare_inputs(x.inputs.as_slice(), names, found),
        Declaration::Constant(x) => declare(&x.name, Meaning::Constant, names, found),
        Declaration::Output(x) => {
            declare(&x.name, Meaning::Output(x.parameters.len()), names, found)?;
            let mut own = Names::create(alloc);
            declare_parameters(x.parameters.as_slice(), names, &mut own, found)
        }
        Declaration::Trigger(_) => Ok(()),
    }
}

/// All names of a specification, and those that are declared twice.
pub(crate) fn names(
    alloc: Global,
    declarations: &[Declaration],
    found: &mut Refusals,
) -> Result<Names, Memory>
    ensures found { OnOk result (Finds (all_repeats [] declarations.now) found.old found.new) }
    ensures names { IfOk result (λ names. names ≡ names_of declarations.now) }
{
    let mut names = Names::create(alloc);
    for declaration in declarations {
        declare_all(alloc, declaration, &mut names, found)?;
    }
    Ok(names)
}
