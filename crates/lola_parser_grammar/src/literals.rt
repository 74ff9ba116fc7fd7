//! Names, literals and quantities.

use lola_value::text::Text;

/// A name as it is written.
#[derive(Drop)]
pub struct Name {
    pub text: Text,
    /// Its first byte.
    pub at: u32,
}

/// A name and its kind, as an input or a parameter is declared: `name: kind`.
#[derive(Drop)]
pub struct Typed {
    pub name: Name,
    pub kind: Name,
}

/// What a literal stands for.
#[derive(Drop)]
pub enum Value {
    /// A whole number: whether a `-` stands before its digits, and the number that the digits spell.
    Integer(bool, u128),
    Truth(bool),
    /// The bytes between the quotes, with each escape as the byte that it stands for.
    Text(Text),
}

/// A literal.
#[derive(Drop)]
pub struct Literal {
    pub value: Value,
    /// Its first byte, which is the `-` of a negative integer.
    pub at: u32,
}

/// A unit of time or of frequency.
#[derive(Clone, Copy)]
pub enum QuantityUnit {
    /// `ns`
    Nanoseconds,
    /// `us`
    Microseconds,
    /// `ms`
    Milliseconds,
    /// `s`
    Seconds,
    /// `min`
    Minutes,
    /// `h`
    Hours,
    /// `d`, of 24 hours
    Days,
    /// `mHz`
    Millihertz,
    /// `Hz`
    Hertz,
    /// `kHz`
    Kilohertz,
    /// `MHz`
    Megahertz,
}

/// A duration or a rate as it is written: the number `digits` with its last `decimals` digits behind the point.
#[derive(Clone, Copy)]
pub struct Quantity {
    /// The number that all its digits spell, the point left out.
    pub digits: u128,
    /// How many digits there are, leading zeros too.
    pub count: usize,
    /// How many of them stand behind the point.
    pub decimals: usize,
    pub unit: QuantityUnit,
    /// Its first byte.
    pub at: u32,
}
