//! The plain store as one that tells which texts it holds.

ghost use Rattle.std.specs.Prelude.{◌≡◌, ◌++◌, OnOk, flat_map};
ghost use Rattle.lola_text.specs.Needed.{texts_in};
ghost use Rattle.lola_store.specs.Texts.{instance_texts, items_of, population_texts};

use crate::instance::Instance;
use crate::population::Population;
use crate::store::WholeStore;
use crate::tally::Timed;
use lola_text::adding::{add_outcome, add_params, add_value};
use lola_text::ids::Ids;
use lola_text::store::TextStore;
use lola_value::text::Memory;

// The numbers of the texts among kept values.
fn add_kept(values: &[Timed], into: &mut Ids) -> Result<(), Memory>
    ensures { OnOk result (into.new ≡ into.old ++ texts_in (items_of values.now)) }
{
    for value in values {
        add_value(value.item, into)?;
    }
    Ok(())
}

// The numbers of the texts of an instance.
fn add_instance(x: &Instance, step: u64, into: &mut Ids) -> Result<(), Memory>
    ensures { OnOk result (into.new ≡ into.old ++ instance_texts step x.now) }
{
    add_params(&x.params, into)?;
    add_kept(x.values.as_slice(), into)?;
    add_outcome(x.now(step), into)
}

// Of each instance of a stream.
fn add_lives(lives: &[Instance], step: u64, into: &mut Ids) -> Result<(), Memory>
    ensures { OnOk result (into.new ≡ into.old ++ flat_map (instance_texts step) lives.now) }
{
    for x in lives {
        add_instance(x, step, into)?;
    }
    Ok(())
}

// Of each stream.
fn add_all(streams: &[Population], step: u64, into: &mut Ids) -> Result<(), Memory>
    ensures { OnOk result (into.new ≡ into.old ++ flat_map (population_texts step) streams.now) }
{
    for population in streams {
        add_lives(population.lives.as_slice(), step, into)?;
    }
    Ok(())
}

impl TextStore for WholeStore {
    ghost use Rattle.lola_store.specs.Texts.{whole_texts};
    ghost use Rattle.lola_store.specs.Needing.{whole_shows, whole_kept};

    ghost holds = { whole_texts };

    fn texts(&self, into: &mut Ids) -> Result<(), Memory> {
        add_all(self.streams.as_slice(), self.step, into)
    }

    ghost shows = { whole_shows };

    ghost kept = { whole_kept };
}
