//! Laws of what a store stands for once texts are gone. A law is a function that does nothing: what it ensures is the law, and its
//! proof is proved with the crate.

ghost use Rattle.lola_value.specs.Naming.{Naming};
ghost use Rattle.lola_model.specs.Content.{Content};
ghost use Rattle.lola_model.specs.Standing.{StandsBetween};
ghost use Rattle.lola_text.specs.Needed.{KeepsTexts};

use crate::store::TextStore;

/// What a store stands for through a naming it stands for through each that has the texts that the store holds.
pub fn kept_stands<S: TextStore>(_store: &S)
    ensures { (names fewer : Naming) (c : Content) → KeepsTexts (S.holds _store.now) names fewer
        → StandsBetween names (S.remembers _store.now) (S.seen _store.now) c
        → StandsBetween fewer (S.remembers _store.now) (S.seen _store.now) c }
{}
