//! What an expression comes to, with values that are lent: no expression makes a text of its own, so none has to be copied.

ghost use Rattle.std.specs.Prelude.{◌≡◌, IfOk};
ghost use Rattle.lola_model.specs.Content.{seen};
ghost use Rattle.lola_replay_table.specs.Answers.{kept_answer, the_answer, the_field};

use lola_value::text::{Field, Memory, Text};
use lola_value::value::FaultKind;
use std::alloc::Global;

/// A field whose text stands elsewhere.
#[derive(Clone, Copy)]
pub enum LentField<'a> {
    Absent,
    Bool(bool),
    Int(i128),
    Text(&'a [u8]),
}

/// An outcome whose value is lent: a value, none, a fault of one's own, or the poison of another's.
#[derive(Clone, Copy)]
pub enum LentAnswer<'a> {
    Given(LentField<'a>),
    Missing,
    Fault(FaultKind),
    Poisoned,
}

/// An outcome that is kept, with its value.
#[derive(Drop)]
pub enum KeptAnswer {
    Given(Field),
    Missing,
    Fault(FaultKind),
    Poisoned,
}

/// A field, lent.
pub fn lend(field: &Field) -> LentField<'_>
    ensures { the_field result ≡ field.now }
{
    match field {
        Field::Absent => LentField::Absent,
        Field::Bool(b) => LentField::Bool(*b),
        Field::Int(z) => LentField::Int(*z),
        Field::Text(text) => LentField::Text(text.as_bytes()),
    }
}

/// A field of one's own.
pub fn keep_field(alloc: Global, field: LentField) -> Result<Field, Memory>
    ensures { IfOk result (λ kept. kept ≡ the_field field.entry) }
{
    match field {
        LentField::Absent => Ok(Field::Absent),
        LentField::Bool(b) => Ok(Field::Bool(b)),
        LentField::Int(z) => Ok(Field::Int(z)),
        LentField::Text(bytes) => {
            let text = Text::from_bytes(alloc, bytes)?;
            Ok(Field::Text(text))
        }
    }
}

/// An outcome to be kept.
pub fn keep(alloc: Global, answer: LentAnswer) -> Result<KeptAnswer, Memory>
    ensures { IfOk result (λ kept. kept_answer kept ≡ the_answer answer.entry) }
{
    match answer {
        LentAnswer::Given(field) => {
            let kept = keep_field(alloc, field)?;
            Ok(KeptAnswer::Given(kept))
        }
        LentAnswer::Missing => Ok(KeptAnswer::Missing),
        LentAnswer::Fault(kind) => Ok(KeptAnswer::Fault(kind)),
        LentAnswer::Poisoned => Ok(KeptAnswer::Poisoned),
    }
}

impl KeptAnswer {
    ghost use Rattle.lola_model.specs.Content.{seen};
    ghost use Rattle.lola_replay_table.specs.Answers.{kept_answer, the_answer};

    /// The outcome.
    pub fn lent(&self) -> LentAnswer<'_>
        ensures { the_answer result ≡ kept_answer self.now }
    {
        match self {
            KeptAnswer::Given(field) => LentAnswer::Given(lend(field)),
            KeptAnswer::Missing => LentAnswer::Missing,
            KeptAnswer::Fault(kind) => LentAnswer::Fault(*kind),
            KeptAnswer::Poisoned => LentAnswer::Poisoned,
        }
    }

    /// What others see of it: a fault poisons them.
    pub fn seen(&self) -> LentAnswer<'_>
        ensures { the_answer result ≡ seen (kept_answer self.now) }
    {
        match self {
            KeptAnswer::Given(field) => LentAnswer::Given(lend(field)),
            KeptAnswer::Missing => LentAnswer::Missing,
            KeptAnswer::Fault(_) => LentAnswer::Poisoned,
            KeptAnswer::Poisoned => LentAnswer::Poisoned,
        }
    }
}
