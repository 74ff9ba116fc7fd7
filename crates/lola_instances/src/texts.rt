//! The bounded store as one that tells which texts it holds.

ghost use Rattle.std.specs.Prelude.{◌≡◌, ◌++◌, OnOk, flat_map};
ghost use Rattle.lola_instances_stream.specs.Texts.{crowd_texts};

use crate::store::BoundedStore;
use lola_instances_stream::instances::Instances;
use lola_text::ids::Ids;
use lola_text::store::TextStore;
use lola_value::text::Memory;

// The numbers of the texts of each stream.
fn add_all(streams: &[Instances], into: &mut Ids) -> Result<(), Memory>
    ensures { OnOk result (into.new ≡ into.old ++ flat_map crowd_texts streams.now) }
{
    for lives in streams {
        lives.texts(into)?;
    }
    Ok(())
}

impl TextStore for BoundedStore {
    ghost use Rattle.lola_instances.specs.Texts.{bounded_texts};
    ghost use Rattle.lola_instances.specs.Needing.{bounded_shows, bounded_kept};

    ghost holds = { bounded_texts };

    fn texts(&self, into: &mut Ids) -> Result<(), Memory> {
        add_all(self.streams.as_slice(), into)
    }

    ghost shows = { bounded_shows };

    ghost kept = { bounded_kept };
}
