//! Pacings and clauses.

ghost use Rattle.std.specs.Prelude.{◌≡◌, ◌++◌, ◌∷◌, [], OnOk};
ghost use Rattle.std.specs.Str.{bytes_eq};
ghost use Rattle.lola_lexer.specs.declared.shape.TokenShape.TheVariants as is;
ghost use Rattle.lola_parser_print.specs.Print as out;

use crate::expressions::{bare, open_if, shut_if};
use crate::tokens::{put_name, put_quantity};
use lola_parser_grammar::clauses::{Close, Eval, Part, Spawn};
use lola_parser_grammar::literals::Quantity;
use lola_parser_grammar::pacing::{Formula, Pacing, Rhythm};
use lola_value::text::{Memory, Text};

/// How tightly a formula binds.
fn formula_level(x: &Formula) -> u8
    ensures { result ≡ out.formula_level x.now }
{
    match x {
        Formula::Input(_) => 2,
        Formula::Both(_, _, _) => 1,
        Formula::Either(_, _, _) => 0,
    }
}

/// An operator and the formula behind it.
#[cycle(formulas)]
fn behind(operator: &[u8], x: &Formula, k: u8, to: &mut Text) -> Result<(), Memory>
    ensures { OnOk result (to.new ≡ to.old ++ (operator.now ++ out.spelled_out (out.print_formula x.now k))) }
{
    to.append(operator)?;
    formula(x, k, to)
}

#[cycle(formulas)]
fn bare_formula(x: &Formula, to: &mut Text) -> Result<(), Memory>
    ensures { OnOk result (out.Adds (out.bare_formula x.now) to.old to.new) }
{
    match x {
        Formula::Input(name) => put_name(name, to),
        Formula::Both(_, x, y) => {
            formula(x.get(), 1, to)?;
            behind(b"&& ", y.get(), 2, to)
        }
        Formula::Either(_, x, y) => {
            formula(x.get(), 0, to)?;
            behind(b"|| ", y.get(), 1, to)
        }
    }
}

/// A formula as an operand of a tightness: 0 a formula, 1 an operand of `||`, 2 one of `&&`.
#[cycle(formulas)]
fn formula(x: &Formula, k: u8, to: &mut Text) -> Result<(), Memory>
    ensures { OnOk result (out.Adds (out.print_formula x.now k) to.old to.new) }
{
    let needs = formula_level(x) < k;
    open_if(needs, to)?;
    bare_formula(x, to)?;
    shut_if(needs, to)
}

fn is(word: &[u8], other: &[u8]) -> bool
    ensures { result ≡ bytes_eq word.now other.now }
{
    word == other
}

fn is_clock(word: &[u8]) -> bool
    ensures { result ≡ out.is_clock word.now }
{
    is(word, b"Global") || is(word, b"Local")
}

/// Whether the formula behind an `@` stands in brackets.
fn is_bracketed(x: &Formula) -> bool
    ensures { out.event x.now ≡ out.bracketed_if result (out.bare_formula x.now) }
{
    match x {
        Formula::Input(name) => is_clock(name.text.as_bytes()),
        Formula::Both(_, _, _) => true,
        Formula::Either(_, _, _) => true,
    }
}

fn event(x: &Formula, to: &mut Text) -> Result<(), Memory>
    ensures { OnOk result (out.Adds (out.event x.now) to.old to.new) }
{
    let needs = is_bracketed(x);
    open_if(needs, to)?;
    bare_formula(x, to)?;
    shut_if(needs, to)
}

/// A word with a quantity in brackets.
fn clock(word: &[u8], length: &Quantity, to: &mut Text) -> Result<(), Memory>
    ensures { OnOk result (to.new ≡ to.old ++ (word.now ++ out.spelled_out (out.quantity length.now ∷ out.lex is.Shut ∷ []))) }
{
    to.append(word)?;
    put_quantity(length, to)?;
    to.append(b") ")
}

fn rhythm(x: &Rhythm, to: &mut Text) -> Result<(), Memory>
    ensures { OnOk result (out.Adds (out.rhythm x.now) to.old to.new) }
{
    match x {
        Rhythm::Rate(quantity) => put_quantity(quantity, to),
        Rhythm::Formula(formula) => event(formula, to),
        Rhythm::Global(quantity) => clock(b"Global ( ", quantity, to),
        Rhythm::Local(quantity) => clock(b"Local ( ", quantity, to),
    }
}

pub(crate) fn pacing(x: &Option<Pacing>, to: &mut Text) -> Result<(), Memory>
    ensures { OnOk result (out.Adds (out.maybe out.pacing x.now) to.old to.new) }
{
    match x {
        None => Ok(()),
        Some(pacing) => {
            to.append(b"@ ")?;
            rhythm(&pacing.rhythm, to)
        }
    }
}

/// A word or a sign, and the expression of a part.
pub(crate) fn part(word: &[u8], part: &Part, to: &mut Text) -> Result<(), Memory>
    ensures { OnOk result (to.new ≡ to.old ++ (word.now ++ out.spelled_out (out.bare part.now.expr))) }
{
    to.append(word)?;
    bare(&part.expr, to)
}

fn when(x: &Option<Part>, to: &mut Text) -> Result<(), Memory>
    ensures { OnOk result (out.Adds (out.maybe (out.part is.When) x.now) to.old to.new) }
{
    match x {
        None => Ok(()),
        Some(x) => part(b"when ", x, to),
    }
}

fn further_parts(parts: &[Part], to: &mut Text) -> Result<(), Memory>
    ensures { OnOk result (out.Adds (out.further_parts parts.now) to.old to.new) }
{
    for x in parts {
        part(b", ", x, to)?;
    }
    Ok(())
}

fn with_parts(parts: &[Part], to: &mut Text) -> Result<(), Memory>
    ensures { OnOk result (out.Adds (out.with_parts parts.now) to.old to.new) }
{
    match parts {
        [] => Ok(()),
        [only] => part(b"with ", only, to),
        [first, rest @ ..] => {
            part(b"with ( ", first, to)?;
            further_parts(rest, to)?;
            to.append(b") ")
        }
    }
}

/// A keyword, and the pacing and the condition behind it.
fn clause(
    word: &[u8],
    x: &Option<Pacing>,
    condition: &Option<Part>,
    to: &mut Text,
) -> Result<(), Memory>
    ensures { OnOk result (to.new ≡ to.old ++ (word.now ++ out.spelled_out (out.maybe out.pacing x.now ++ out.maybe (out.part is.When) condition.now))) }
{
    to.append(word)?;
    pacing(x, to)?;
    when(condition, to)
}

pub(crate) fn spawn(x: &Option<Spawn>, to: &mut Text) -> Result<(), Memory>
    ensures { OnOk result (out.Adds (out.maybe out.spawn x.now) to.old to.new) }
{
    match x {
        None => Ok(()),
        Some(x) => {
            clause(b"spawn ", &x.pacing, &x.when, to)?;
            with_parts(x.with.as_slice(), to)
        }
    }
}

pub(crate) fn eval(x: &Eval, to: &mut Text) -> Result<(), Memory>
    ensures { OnOk result (out.Adds (out.eval x.now) to.old to.new) }
{
    clause(b"eval ", &x.pacing, &x.when, to)?;
    part(b"with ", &x.with, to)
}

/// `@p := e`
pub(crate) fn short_eval(x: &Eval, to: &mut Text) -> Result<(), Memory>
    ensures { OnOk result (out.Adds (out.short_eval x.now) to.old to.new) }
{
    pacing(&x.pacing, to)?;
    part(b":= ", &x.with, to)
}

pub(crate) fn close(x: &Option<Close>, to: &mut Text) -> Result<(), Memory>
    ensures { OnOk result (out.Adds (out.maybe out.close x.now) to.old to.new) }
{
    match x {
        None => Ok(()),
        Some(x) => {
            to.append(b"close ")?;
            pacing(&x.pacing, to)?;
            part(b"when ", &x.when, to)
        }
    }
}
