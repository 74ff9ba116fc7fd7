//! Instructions.

use lola_model::expr::{Access, Binary, Prefix};
use lola_value::short::Short;
use lola_value::value::Kind;

/// One instruction of a machine that has one outcome in hand, and values on a stack. All that it needs stands in it: numbers of
/// streams, windows and parameters, operators, kinds and literals. How a stream is read is the instruction's own, so that one jump decides.
/// A jump says how many of the instructions behind it are passed.
#[derive(Clone, Copy)]
pub enum Instr {
    /// This value.
    Give(Short),
    /// Leaves the code: the expression is to be evaluated.
    Leave,
    /// The parameter of this number, from 0.
    Parameter(u32),
    /// The value at this step of a stream without parameters.
    ReadNow(u32),
    /// The newest value of such a stream, at this step or before.
    ReadNewest(u32),
    /// The value of such a stream that is so many before this step, from 1.
    ReadBack(u32, u32),
    /// The value at this step of such a stream, or this one where that is missing.
    ReadNowOr(u32, Short),
    /// The newest one, or this one where that is missing.
    ReadNewestOr(u32, Short),
    /// An earlier one, or this one where that is missing.
    ReadBackOr(u32, u32, Short),
    /// What an access answers, of the instance that so many values on the stack name, which are taken off.
    ReadAt(u32, Access, u32),
    /// What a window answers, over the instance that so many values on the stack name, which are taken off.
    Window(u32, u32),
    /// Puts the value in hand on the stack, or jumps where there is none.
    Keep(usize),
    /// Puts the value in hand on the stack; where there is none, takes off so many as the last number says, and jumps.
    KeepArgument(usize, u32),
    /// An operator before the value in hand.
    Prefix(Prefix, Kind),
    /// An operator between the newest value on the stack, which is taken off, and the one in hand.
    Operator(Binary, Kind),
    /// An operator between the value in hand and this one.
    OperatorGiven(Binary, Kind, Short),
    /// An operator between the value in hand and the one at this step of a stream without parameters.
    OperatorNow(Binary, Kind, u32),
    /// The same, or with the last value where that is missing.
    OperatorNowOr(Binary, Kind, u32, Short),
    /// The same with the newest value of such a stream, or the last value.
    OperatorNewestOr(Binary, Kind, u32, Short),
    /// The same with an earlier one, or the last value.
    OperatorBackOr(Binary, Kind, u32, u32, Short),
    /// Jumps unless what is in hand is missing.
    Otherwise(usize),
    /// Jumps unless true is in hand.
    WhereTrue(usize),
    /// Jumps unless false is in hand.
    WhereFalse(usize),
    /// Jumps by the first number where false is in hand, and by the second where no value is.
    Test(usize, usize),
    /// Jumps.
    Jump(usize),
}
