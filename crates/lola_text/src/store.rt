//! Stores that tell which texts they hold.

ghost use Rattle.std.specs.Prelude.{◌≡◌, ◌++◌, ℕ, List, Some, OnOk, slice_get};
ghost use Rattle.lola_value.specs.declared.text.Field.{Field};
ghost use Rattle.lola_value.specs.declared.value.TextId.{TextId};
ghost use Rattle.lola_value.specs.Naming.{Naming, the_values};
ghost use Rattle.lola_model.specs.Store.{SeenInstance, instances_seen};
ghost use Rattle.lola_text.specs.Needed.{AreAmong, IsAmongIn, KeepsTexts};

use crate::ids::Ids;
use lola_model::store::StreamStore;
use lola_value::text::Memory;

/// A store that tells the numbers of the texts that it holds. All others can go: what it stands for through a table of texts it
/// stands for through one that has no more than these.
pub trait TextStore: StreamStore {
    /// The numbers of the texts that it holds: those of parameters and of the values that it keeps, this step's among them.
    ghost holds: { Self → List TextId };

    /// Appends the numbers of the texts that it holds. Where there is no memory some of them may have been appended.
    fn texts(&self, into: &mut Ids) -> Result<(), Memory>
        ensures { OnOk result (into.new ≡ into.old ++ holds self.now) };

    /// No text but these is shown.
    ghost shows: { (s : Self) (n i : ℕ) (x : SeenInstance) → slice_get (instances_seen (Self.seen s) n) i ≡ Some x
        → AreAmong (holds s) (the_values x.params) × IsAmongIn (holds s) x.outcome };

    /// Earlier values are remembered through each naming that has these texts.
    ghost kept: { (s : Self) (names fewer : Naming) (n i : ℕ) (values : List (ℕ × Field))
        → KeepsTexts (holds s) names fewer → Self.remembers s names n i values → Self.remembers s fewer n i values };
}
