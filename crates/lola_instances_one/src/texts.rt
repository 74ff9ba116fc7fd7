//! The numbers of the texts in a ring, added to a list.

ghost use Rattle.std.specs.Prelude.{◌≡◌, ◌++◌, OnOk};
ghost use Rattle.lola_text.specs.Needed.{texts_in};

use crate::instance::or_missing;
use lola_buffer::buffer::Buffer;
use lola_text::adding::add_outcome;
use lola_text::ids::Ids;
use lola_value::text::Memory;

/// The numbers of the texts among the values of a ring, from the oldest on. Where there is no memory some of them may have
/// been added.
pub fn add_ring(ring: &Buffer, into: &mut Ids) -> Result<(), Memory>
    ensures { OnOk result (into.new ≡ into.old ++ texts_in ring.now.values) }
{
    let count = ring.len();
    for i in 0..count {
        add_outcome(or_missing(ring.back(count - 1 - i)).widen(), into)?;
    }
    Ok(())
}
