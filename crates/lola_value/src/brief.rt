//! Outcomes and values of 16 bytes that contracts see as what they stand for.

ghost use Rattle.std.specs.Prelude.{◌≡◌, false, true, MatchOption};
ghost use Rattle.lola_value.specs.declared.value.Outcome.TheVariants as outcome;
ghost use Rattle.lola_value.specs.Shorts.{IsShort, IsShortValue, has_value, is_exact, is_given, value_in, widened};

use crate::short::{Short, is_value, narrow, narrow_value, value_of, widen};
use crate::value::{Outcome, Value};
use std::marker::Model;

// The one form of an outcome: a number that has a sign's form is in it.
#[inline(always)]
fn exact(short: Short) -> Short
    ensures same { widened result ≡ widened short }
    ensures value { value_in result ≡ value_in short }
    ensures there { has_value result ≡ has_value short }
    ensures one { is_exact result ≡ true }
{
    match short {
        Short::Large(n) if n <= 9223372036854775807 => Short::Int(n as i64),
        _ => short,
    }
}

/// An outcome in 16 bytes, for what keeps or hands on many. Contracts see the outcome.
#[derive(Clone, Copy)]
pub struct Brief {
    short: Short,
}

impl Model for Brief {
    ghost use Rattle.std.specs.Prelude.{◌≡◌, true};
    ghost use Rattle.std.proofs.Common.{ap};
    ghost use Rattle.lola_value.specs.declared.value.Outcome.{Outcome as Wide};
    ghost use Rattle.lola_value.specs.Shorts.{is_exact, is_its_form, shortened, widened};

    ghost Value = { Wide };

    ghost view = { λ b. widened b.short };

    ghost invariant = { λ b. is_exact b.short ≡ true };

    ghost inverse = { λ o. record { short = shortened o } };

    ghost inverse_ok = { λ b h. ap (λ s. record { short = s }) (is_its_form b.short h) };
}

impl Brief {
    /// The outcome that a short one stands for.
    #[inline(always)]
    pub fn create(short: Short) -> Brief
        ensures { result ≡ widened short }
    {
        Brief {
            short: exact(short),
        }
    }

    /// This outcome, whose number is one of 64 bits.
    #[inline(always)]
    pub fn of(wide: Outcome) -> Brief
        requires { IsShort wide }
        ensures { result ≡ wide }
    {
        Brief::create(narrow(wide))
    }

    /// This value.
    #[inline(always)]
    pub fn given(value: BriefValue) -> Brief
        ensures { result ≡ outcome.Value value }
    {
        Brief { short: value.short }
    }

    /// None.
    #[inline(always)]
    pub fn missing() -> Brief
        ensures { result ≡ outcome.Missing }
    {
        Brief::create(Short::Missing)
    }

    /// It in short.
    #[inline(always)]
    pub fn short(self) -> Short
        ensures { widened result ≡ self }
    {
        self.short
    }

    /// It in full.
    #[inline(always)]
    pub fn widen(self) -> Outcome
        ensures { result ≡ self }
    {
        widen(self.short)
    }

    /// The value that it is, if it is one.
    #[inline(always)]
    pub fn value(self) -> Option<BriefValue>
        ensures { MatchOption result (is_given self ≡ false) (λ v. self ≡ outcome.Value v) }
    {
        let short = self.short;
        if is_value(short) {
            Some(BriefValue { short })
        } else {
            None
        }
    }
}

/// A value in 16 bytes. Contracts see the value.
#[derive(Clone, Copy)]
pub struct BriefValue {
    short: Short,
}

impl Model for BriefValue {
    ghost use Rattle.std.specs.Prelude.{◌≡◌, true};
    ghost use Rattle.std.proofs.Common.{ap};
    ghost use Rattle.lola_value.specs.declared.value.Value.{Value as Wide};
    ghost use Rattle.lola_value.specs.Shorts.{has_value, is_exact, is_its_value, shortened_value, value_in};

    ghost Value = { Wide };

    ghost view = { λ b. value_in b.short };

    ghost invariant = { λ b. (is_exact b.short ≡ true) × (has_value b.short ≡ true) };

    ghost inverse = { λ v. record { short = shortened_value v } };

    ghost inverse_ok = { λ b h. ap (λ s. record { short = s }) (is_its_value b.short h.0 h.1) };
}

impl BriefValue {
    // The value that a short outcome is.
    #[inline(always)]
    fn create(short: Short) -> BriefValue
        requires { has_value short ≡ true }
        ensures { result ≡ value_in short }
    {
        BriefValue {
            short: exact(short),
        }
    }

    /// This value, whose number is one of 64 bits.
    #[inline(always)]
    pub fn of(wide: Value) -> BriefValue
        requires { IsShortValue wide }
        ensures { result ≡ wide }
    {
        BriefValue::create(narrow_value(wide))
    }

    /// It in short.
    #[inline(always)]
    pub fn short(self) -> Short
        ensures value { widened result ≡ outcome.Value self }
        ensures there { has_value result ≡ true }
    {
        self.short
    }

    /// It in full.
    #[inline(always)]
    pub fn widen(self) -> Value
        ensures { result ≡ self }
    {
        value_of(self.short)
    }
}
