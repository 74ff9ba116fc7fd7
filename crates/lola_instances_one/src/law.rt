//! Laws of the definitions. A law is a function that does nothing: what it ensures is the law, and
//! its proof is proved with the crate.

ghost use Rattle.std.specs.Prelude.{◌≡◌, ℕ, List};
ghost use Rattle.lola_value.specs.declared.text.Field.{Field};
ghost use Rattle.lola_value.specs.declared.value.Outcome.TheVariants as outcome;
ghost use Rattle.lola_value.specs.Naming.{Naming};
ghost use Rattle.lola_instances_one.specs.Holdings.{shown};
ghost use Rattle.lola_instances_one.specs.Memories.{Remembers};
ghost use Rattle.lola_instances_one.specs.Saved.{MayHaveHad};

use crate::instance::Instance;

/// An instance that was given nothing in a step remembers each list of values that it may have had.
pub fn silent_remembers(_instance: &Instance, _step: u64)
    requires { shown _step _instance.now ≡ outcome.Missing }
    ensures { (start time : ℕ) (names : Naming) (values : List (ℕ × Field)) → MayHaveHad start names _instance.now values → Remembers start time _step names _instance.now values }
{}
