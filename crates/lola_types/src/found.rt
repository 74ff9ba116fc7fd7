//! What a part of an expression is found to be, and the rows of the table of kinds.

ghost use Rattle.std.specs.Prelude.{◌≡◌};
ghost use Rattle.lola_model.specs.Typing.{same_kind as are_same, takes as takes_kind, is_total as gives_of_none};
ghost use Rattle.lola_value.specs.Kinds.{is_integer as has_numbers, is_signed as has_negatives};
ghost use Rattle.lola_model.specs.Store.{gives_kind as kind_given};
ghost use Rattle.lola_types.specs.Found.{is_broken as broken, is_unknown as unknown, with_kind as joined_to_kind, with_free as joined_to_free, joint as joined, certain_part, integer_part, signed_part, truth_part, unless_broken, made_certain as as_certain, by_row as by_the_row, by_two as by_the_two, arithmetic_part, order_part, equality_part, connected_part, binary_part, prefix_part, defaults_part, choice_part, argument_fits, of_kind as part_of_kind, reference_part, known_window as window_of_kind, early_window as window_before, window_part, literal_part};

use lola_model::expr::{Binary, Prefix};
use lola_model::spec::{Agg, WindowSpec};
use lola_value::value::{Kind, Value};

/// What a part of an expression is, as far as the kinds of streams are found.
#[derive(Clone, Copy, PartialEq)]
pub enum Found {
    /// Of this kind, and whether it is certain: one that is not may have no value in a step.
    Of(Kind, bool),
    /// A number without a kind of its own, or made of such: it takes the kind of what stands with it.
    Free,
    /// Of a kind that is not found yet.
    Unknown,
    /// Of no kind, since its row of the table of kinds or that of a part in it does not hold.
    Broken,
}

/// Whether two kinds are the same.
pub fn same_kind(one: Kind, other: Kind) -> bool
    ensures { result ≡ are_same one other }
{
    one as u8 == other as u8
}

/// Whether a kind is one of numbers.
pub fn is_integer(kind: Kind) -> bool
    ensures { result ≡ has_numbers kind }
{
    !matches!(kind, Kind::Bool | Kind::Text)
}

/// Whether a kind has negative numbers.
pub fn is_signed(kind: Kind) -> bool
    ensures { result ≡ has_negatives kind }
{
    matches!(kind, Kind::Int8 | Kind::Int16 | Kind::Int32 | Kind::Int64)
}

/// A truth value.
const A_TRUTH: Found = Found::Of(Kind::Bool, true);

impl Found {
    /// Whether it has no kind since a row does not hold.
    pub fn is_broken(self) -> bool
        ensures { result ≡ broken self }
    {
        matches!(self, Found::Broken)
    }

    /// Whether its kind is not found yet.
    pub fn is_unknown(self) -> bool
        ensures { result ≡ unknown self }
    {
        matches!(self, Found::Unknown)
    }

    /// What two operands are together that have to be of equal kinds, this one of a kind.
    fn with_kind(kind: Kind, certain: bool, other: Found) -> Found
        ensures { result ≡ joined_to_kind kind certain other }
    {
        match other {
            Found::Of(k, c) if same_kind(kind, k) => Found::Of(kind, certain && c),
            Found::Free if is_integer(kind) => Found::Of(kind, certain),
            Found::Unknown => Found::Of(kind, certain),
            _ => Found::Broken,
        }
    }

    /// The same, where this one is free.
    fn with_free(other: Found) -> Found
        ensures { result ≡ joined_to_free other }
    {
        match other {
            Found::Of(kind, certain) if is_integer(kind) => Found::Of(kind, certain),
            Found::Free | Found::Unknown => Found::Free,
            _ => Found::Broken,
        }
    }

    /// What two operands are together that have to be of equal kinds.
    pub fn joint(self, other: Found) -> Found
        ensures { result ≡ joined self other }
    {
        match self {
            Found::Of(kind, certain) => Found::with_kind(kind, certain, other),
            Found::Free => Found::with_free(other),
            Found::Unknown => other,
            Found::Broken => Found::Broken,
        }
    }

    /// The part, if it is certain.
    fn certain(self) -> Found
        ensures { result ≡ certain_part self }
    {
        match self {
            Found::Of(_, false) => Found::Broken,
            _ => self,
        }
    }

    /// The part, if it is a certain number.
    fn integer(self) -> Found
        ensures { result ≡ integer_part self }
    {
        match self {
            Found::Of(kind, certain) if !is_integer(kind) || !certain => Found::Broken,
            _ => self,
        }
    }

    /// The part, if it is a certain number of a kind that has negative ones.
    fn signed(self) -> Found
        ensures { result ≡ signed_part self }
    {
        match self {
            Found::Of(kind, certain) if !is_signed(kind) || !certain => Found::Broken,
            _ => self,
        }
    }

    /// The part, if it is a certain truth value.
    fn truth(self) -> Found
        ensures { result ≡ truth_part self }
    {
        match self {
            Found::Of(kind, certain) => {
                if same_kind(kind, Kind::Bool) && certain {
                    A_TRUTH
                } else {
                    Found::Broken
                }
            }
            Found::Free => Found::Broken,
            _ => self,
        }
    }

    /// Another part, where this one is not broken.
    fn unless_broken(self, other: Found) -> Found
        ensures { result ≡ unless_broken self other }
    {
        match self {
            Found::Broken => Found::Broken,
            _ => other,
        }
    }

    /// A certain part of the same kind.
    fn made_certain(self) -> Found
        ensures { result ≡ as_certain self }
    {
        match self {
            Found::Of(kind, _) => Found::Of(kind, true),
            _ => self,
        }
    }
}

/// What a row gives where all operands are known, and what is said before.
fn by_row(is_broken: bool, is_unknown: bool, row: Found, early: Found) -> Found
    ensures { result ≡ by_the_row is_broken is_unknown row early }
{
    if is_broken {
        Found::Broken
    } else if is_unknown {
        early
    } else {
        row
    }
}

/// The same of two operands.
fn by_two(a: Found, b: Found, row: Found, early: Found) -> Found
    ensures { result ≡ by_the_two a b row early }
{
    by_row(
        a.is_broken() || b.is_broken(),
        a.is_unknown() || b.is_unknown(),
        row,
        early,
    )
}

/// `+`, `-`, `*`, `/`, `%`.
fn arithmetic(a: Found, b: Found) -> Found
    ensures { result ≡ arithmetic_part a b }
{
    let both = a.joint(b);
    by_two(a, b, both.integer(), both)
}

/// `<`, `<=`, `>`, `>=`.
fn order(a: Found, b: Found) -> Found
    ensures { result ≡ order_part a b }
{
    by_two(a, b, a.joint(b).integer().unless_broken(A_TRUTH), A_TRUTH)
}

/// `==`, `!=`.
fn equality(a: Found, b: Found) -> Found
    ensures { result ≡ equality_part a b }
{
    by_two(a, b, a.joint(b).certain().unless_broken(A_TRUTH), A_TRUTH)
}

/// `&&`, `||`.
fn connected(a: Found, b: Found) -> Found
    ensures { result ≡ connected_part a b }
{
    by_two(a, b, a.truth().unless_broken(b.truth()), A_TRUTH)
}

/// An operator between two operands.
pub fn binary(operator: Binary, a: Found, b: Found) -> Found
    ensures { result ≡ binary_part operator a b }
{
    match operator {
        Binary::Add | Binary::Sub | Binary::Mul | Binary::Div | Binary::Rem => arithmetic(a, b),
        Binary::Less | Binary::LessEqual | Binary::Greater | Binary::GreaterEqual => order(a, b),
        Binary::Equal | Binary::Different => equality(a, b),
        Binary::And | Binary::Or => connected(a, b),
    }
}

/// An operator before an operand.
pub fn prefix(operator: Prefix, a: Found) -> Found
    ensures { result ≡ prefix_part operator a }
{
    match operator {
        Prefix::Not => by_row(a.is_broken(), a.is_unknown(), a.truth(), A_TRUTH),
        Prefix::Minus => by_row(a.is_broken(), a.is_unknown(), a.signed(), Found::Unknown),
    }
}

/// `a.defaults(to: b)`.
pub fn defaults(a: Found, b: Found) -> Found
    ensures { result ≡ defaults_part a b }
{
    let both = a.joint(b).made_certain();
    by_two(a, b, b.certain().unless_broken(both), both)
}

/// `if t then a else b`.
pub fn choice(t: Found, a: Found, b: Found) -> Found
    ensures { result ≡ choice_part t a b }
{
    let both = a.joint(b);
    by_row(
        t.is_broken() || (a.is_broken() || b.is_broken()),
        t.is_unknown() || (a.is_unknown() || b.is_unknown()),
        t.truth().unless_broken(both.certain()),
        both.made_certain(),
    )
}

/// Whether an argument fits a parameter of this kind. It may be optional.
pub fn fits(argument: Found, want: Kind) -> bool
    ensures { result ≡ argument_fits argument want }
{
    match argument {
        Found::Of(kind, _) => same_kind(kind, want),
        Found::Free => is_integer(want),
        Found::Unknown => true,
        Found::Broken => false,
    }
}

/// A part of this kind, if it is found.
pub fn of_kind(kind: Option<Kind>, certain: bool) -> Found
    ensures { result ≡ part_of_kind kind certain }
{
    match kind {
        None => Found::Unknown,
        Some(kind) => Found::Of(kind, certain),
    }
}

/// A reference, where some argument is broken or all of them fit or not.
pub fn reference(is_broken: bool, fits: bool, part: Found) -> Found
    ensures { result ≡ reference_part is_broken fits part }
{
    if is_broken || !fits {
        Found::Broken
    } else {
        part
    }
}

/// Whether an aggregation takes values of this kind.
fn takes(aggregation: Agg, kind: Kind) -> bool
    ensures { result ≡ takes_kind aggregation kind }
{
    match aggregation {
        Agg::Count => true,
        Agg::Sum | Agg::Min | Agg::Max | Agg::Avg => is_integer(kind),
        Agg::Forall | Agg::Exists => same_kind(kind, Kind::Bool),
    }
}

/// The kind of what an aggregation gives of values of this kind.
fn gives(aggregation: Agg, kind: Kind) -> Kind
    ensures { result ≡ kind_given aggregation kind }
{
    match aggregation {
        Agg::Count => Kind::UInt64,
        Agg::Sum | Agg::Min | Agg::Max | Agg::Avg => kind,
        Agg::Forall | Agg::Exists => Kind::Bool,
    }
}

/// Whether an aggregation gives a value of no values.
fn is_total(aggregation: Agg) -> bool
    ensures { result ≡ gives_of_none aggregation }
{
    match aggregation {
        Agg::Count | Agg::Sum | Agg::Forall | Agg::Exists => true,
        Agg::Min | Agg::Max | Agg::Avg => false,
    }
}

/// A window onto a target of this kind.
fn known_window(window: WindowSpec, kind: Kind) -> Found
    ensures { result ≡ window_of_kind window kind }
{
    if takes(window.using, kind) {
        Found::Of(
            gives(window.using, kind),
            is_total(window.using) && !window.exact,
        )
    } else {
        Found::Broken
    }
}

/// A window onto a target whose kind is not found yet.
fn early_window(aggregation: Agg, exact: bool) -> Found
    ensures { result ≡ window_before aggregation exact }
{
    match aggregation {
        Agg::Count => Found::Of(Kind::UInt64, !exact),
        Agg::Sum | Agg::Min | Agg::Max | Agg::Avg => Found::Unknown,
        Agg::Forall | Agg::Exists => Found::Of(Kind::Bool, !exact),
    }
}

/// A window, by the kind of its target, if it is found.
pub fn window(window: WindowSpec, target: Option<Kind>) -> Found
    ensures { result ≡ window_part window target }
{
    match target {
        None => early_window(window.using, window.exact),
        Some(kind) => known_window(window, kind),
    }
}

/// A literal, with the kind that it has noted as the value of a constant.
pub fn literal(noted: Option<Kind>, value: Value) -> Found
    ensures { result ≡ literal_part noted value }
{
    match noted {
        Some(kind) => Found::Of(kind, true),
        None => match value {
            Value::Bool(_) => A_TRUTH,
            Value::Int(_) => Found::Free,
            Value::Text(_) => Found::Of(Kind::Text, true),
        },
    }
}
