//! What each part of an expression is.

ghost use Rattle.std.specs.Prelude.{◌≡◌, ◌&&◌, ◌||◌, drop, slice_get};
ghost use Rattle.lola_model.specs.Typing.{is_direct};
ghost use Rattle.lola_types.specs.Around.{setting};
ghost use Rattle.lola_types.specs.Found.{found as found_in, found_all, kind_found, parameters_at as parameters_of, window_parameters, window_at, some_broken, arguments_fit, is_broken, is_fitting, of_kind, parameter_part};

use crate::around::Around;
use crate::found::{self, Found};
use lola_model::expr::{Access, Arguments, Expr};
use lola_model::spec::WindowSpec;
use lola_value::value::Kind;

/// What the arguments of an access are together.
#[derive(Clone, Copy)]
pub struct Fitting {
    /// Some argument is broken.
    pub broken: bool,
    /// There are as many as parameters, and each fits its parameter's kind.
    pub fits: bool,
}

/// The kind of a stream, as far as it is found.
fn kind_of(around: &Around, stream: u32) -> Option<Kind>
    ensures { result ≡ kind_found (setting around.now) stream }
{
    match around.kinds.get(stream as usize) {
        None => Some(Kind::Int64),
        Some(kind) => *kind,
    }
}

/// The kinds of a stream's parameters.
pub fn parameters_at<'a>(around: &Around<'a>, stream: u32) -> &'a [Kind]
    ensures { result.now ≡ parameters_of (setting around.now) stream }
{
    match around.streams.get(stream as usize) {
        None => &[],
        Some(stream) => stream.parameters.as_slice(),
    }
}

/// The window of a number.
pub fn window(around: &Around, number: u32) -> Option<WindowSpec>
    ensures { result ≡ slice_get around.now.windows.now number }
{
    around.windows.get(number as usize).copied()
}

/// The kinds of the parameters of a window's target.
pub fn target_parameters<'a>(around: &Around<'a>, window: Option<WindowSpec>) -> &'a [Kind]
    ensures { result.now ≡ window_parameters (setting around.now) window }
{
    match window {
        None => &[],
        Some(window) => parameters_at(around, window.target),
    }
}

/// What a window is whose arguments fit.
pub fn fitting_window(around: &Around, window: Option<WindowSpec>) -> Found
    ensures { result ≡ window_at (setting around.now) window }
{
    match window {
        None => Found::Broken,
        Some(window) => found::window(window, kind_of(around, window.target)),
    }
}

/// What the parameter of a number is.
pub fn parameter(around: &Around, number: u32) -> Found
    ensures { result ≡ parameter_part (slice_get around.now.parameters.now number) }
{
    match around.parameters.get(number as usize) {
        None => Found::Broken,
        Some(kind) => Found::Of(*kind, true),
    }
}

/// What a direct access, or another, of a stream is whose arguments fit.
pub fn fitting_read(around: &Around, stream: u32, access: Access) -> Found
    ensures { result ≡ of_kind (kind_found (setting around.now) stream) (is_direct access) }
{
    found::of_kind(kind_of(around, stream), matches!(access, Access::Direct))
}

/// The kinds behind the first.
pub fn behind(wants: &[Kind]) -> &[Kind]
    ensures { result.now ≡ drop 1 wants.now }
{
    match wants {
        [] => wants,
        [_, others @ ..] => others,
    }
}

/// What arguments are together, of which the first is this, for a parameter of this kind, and the others are those.
pub fn with_first(first: Found, want: Option<Kind>, others: Fitting) -> Fitting
    ensures broken { result.broken ≡ (is_broken first || others.broken) }
    ensures fits { result.fits ≡ (is_fitting first want && others.fits) }
{
    let is_fitting = match want {
        None => false,
        Some(kind) => found::fits(first, kind),
    };
    Fitting {
        broken: first.is_broken() || others.broken,
        fits: is_fitting && others.fits,
    }
}

/// What an expression is.
#[cycle(find)]
pub fn find(around: &Around, expr: &Expr) -> Found
    ensures { result ≡ found_in (setting around.now) expr.now }
{
    match expr {
        Expr::Literal(place, value) => found::literal(place.kind, *value),
        Expr::Parameter(_, i) => parameter(around, *i),
        Expr::Read(_, stream, access, arguments) => {
            let fitting = fit(around, arguments, parameters_at(around, *stream));
            let part = fitting_read(around, *stream, *access);
            found::reference(fitting.broken, fitting.fits, part)
        }
        Expr::Window(_, number, arguments) => {
            let spec = window(around, *number);
            let fitting = fit(around, arguments, target_parameters(around, spec));
            found::reference(fitting.broken, fitting.fits, fitting_window(around, spec))
        }
        Expr::Defaults(_, a, b) => found::defaults(find(around, a), find(around, b)),
        Expr::Unary(_, operator, a) => found::prefix(*operator, find(around, a)),
        Expr::Both(_, operator, a, b) => found::binary(*operator, find(around, a), find(around, b)),
        Expr::Choice(_, t, a, b) => {
            found::choice(find(around, t), find(around, a), find(around, b))
        }
    }
}

/// What arguments are together, for parameters of these kinds.
#[cycle(find)]
#[tactic(auto, using(crate::proofs::Arguments::fit_first))]
fn fit(around: &Around, arguments: &Arguments, wants: &[Kind]) -> Fitting
    ensures broken { result.broken ≡ some_broken (found_all (setting around.now) arguments.now) }
    ensures fits { result.fits ≡ arguments_fit (found_all (setting around.now) arguments.now) wants.now }
{
    match arguments {
        Arguments::End => Fitting {
            broken: false,
            fits: wants.is_empty(),
        },
        Arguments::More(first, rest) => {
            let part = find(around, first);
            let others = fit(around, rest, behind(wants));
            with_first(part, wants.first().copied(), others)
        }
    }
}
