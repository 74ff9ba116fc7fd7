//! Parameters as a key, under which they are found in a table.

ghost use Rattle.std.specs.Prelude.{◌≡◌, fold};
ghost use Rattle.std.proofs.Common.{◌∙◌};
ghost use Rattle.lola_instances_stream.specs.Keys.{params_writes, place_writes, places_equiv, same_places, writes_alike};

use lola_value::params::equal;
use lola_value::value::{Params, Value};
use std::hash::{Hash, Hasher};

/// The parameters of an instance. Keys are equal where all places are, used or not: so where parameters are
/// well-formed, they are equal exactly where the parameters are the same.
#[derive(Clone, Copy)]
pub struct Key(pub Params);

impl PartialEq for Key {
    ghost eq = { λ a b. same_places a.0 b.0 };

    ghost laws = { record { symm = λ x y. places_equiv.symm x.0 y.0; trans = λ x y z p q. places_equiv.congr x.0 y.0 z.0 p ∙ q } };

    fn eq(&self, other: &Key) -> bool {
        self.0.count == other.0.count
            && equal(self.0.at0, other.0.at0)
            && equal(self.0.at1, other.0.at1)
            && equal(self.0.at2, other.0.at2)
            && equal(self.0.at3, other.0.at3)
    }
}

impl Eq for Key {
    ghost laws = { record { refl = λ x. places_equiv.refl x.0; symm = λ x y. places_equiv.symm x.0 y.0; congr = λ x y z. places_equiv.congr x.0 y.0 z.0 } };
}

// A place of the parameters, to a hash, where it is used.
fn feed<H: Hasher>(is_used: bool, value: Value, state: &mut H)
    ensures { state.new ≡ fold H.write state.old (place_writes is_used value) }
{
    if is_used {
        match value {
            Value::Bool(b) => (b as u64).hash(state),
            Value::Int(z) => z.hash(state),
            Value::Text(id) => id.0.hash(state),
        }
    }
}

impl Hash for Key {
    ghost hash_input = { λ k. params_writes k.0 };

    ghost respects_eq = { λ x y h. writes_alike x.0 y.0 h };

    fn hash<H: Hasher>(&self, state: &mut H) {
        let count = self.0.count;
        feed(0 < count, self.0.at0, state);
        feed(1 < count, self.0.at1, state);
        feed(2 < count, self.0.at2, state);
        feed(3 < count, self.0.at3, state);
    }
}
