//! The constants of a specification.

ghost use Rattle.std.specs.Prelude.{◌≡◌, ◌++◌, IfOk, OnOk};
ghost use Rattle.lola_names.specs.Specification.{AreConstants, IsConstant, IsConstantValue, IsListedOrLast, constants_of};
ghost use Rattle.lola_names.specs.Making.{PutsConstants};

use crate::expressions::{integer, kind};
use crate::made::TextNumbers;
use lola_model::spec::{Constant, Constants};
use lola_parser_grammar::declarations::{Constant as TreeConstant, Declaration};
use lola_parser_grammar::literals::Value as Written;
use lola_value::text::{Memory, Text};
use lola_value::value::{TextId, Value};
use std::alloc::Global;

/// The number of a text: of one that no expression has, the number behind the last.
fn text_number(texts: &TextNumbers, text: &Text) -> TextId
    ensures { IsListedOrLast texts.now text.now (Value.Text result) }
{
    match texts.find(text.as_bytes()) {
        Some(id) => id,
        None => TextId(texts.len() as u64),
    }
}

fn value(texts: &TextNumbers, written: &Written) -> Value
    ensures { IsConstantValue texts.now written.now result }
{
    match written {
        Written::Integer(is_negative, n) => Value::Int(integer(*is_negative, *n)),
        Written::Truth(truth) => Value::Bool(*truth),
        Written::Text(text) => Value::Text(text_number(texts, text)),
    }
}

fn constant(texts: &TextNumbers, x: &TreeConstant) -> Constant
    ensures { IsConstant texts.now x.now result }
{
    Constant {
        kind: kind(&x.kind),
        literal: value(texts, &x.literal.value),
        place: x.literal.at,
        before: x.before,
    }
}

fn put_constants(texts: &TextNumbers, x: &Declaration, to: &mut Constants) -> Result<(), Memory>
    ensures { OnOk result (PutsConstants texts.now x.now to.old to.new) }
{
    match x {
        Declaration::Constant(x) => to.push(constant(texts, x)),
        Declaration::Inputs(_) | Declaration::Output(_) | Declaration::Trigger(_) => Ok(()),
    }
}

/// The constants of all declarations, in the order of the text.
pub(crate) fn constants(
    alloc: Global,
    declarations: &[Declaration],
    texts: &TextNumbers,
) -> Result<Constants, Memory>
    ensures { IfOk result (λ cs. AreConstants texts.now (constants_of declarations.now) cs) }
{
    let mut constants = Constants::create(alloc);
    for declaration in declarations {
        put_constants(texts, declaration, &mut constants)?;
    }
    Ok(constants)
}
