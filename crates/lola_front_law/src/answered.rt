//! The law, about definitions alone.

ghost use Rattle.lola_front_law.specs.Answered.{EachTextHasAnAnswer};

use crate::law::{kinds_are_one, names_are_decided};
use crate::planned::{each_graph_is_layered, each_is_bounded, each_is_paced};
use lola_front::law::{filled_is_named, filled_is_typed};
use lola_names::law::{resolved_is_named, resolved_notes_constants, spelled_closes_are_spawned};
use lola_names::resolvable::each_list_is_resolved;
use lola_pacing::law::each_window_is_paced;

/// Each text has a plan or a refusal: where no phase refuses anything, what the next one asks for is there.
pub fn each_text_has_an_answer()
    ensures { EachTextHasAnAnswer }
{
    names_are_decided();
    each_list_is_resolved();
    spelled_closes_are_spawned();
    resolved_is_named();
    resolved_notes_constants();
    kinds_are_one();
    filled_is_named();
    filled_is_typed();
    each_is_paced();
    each_window_is_paced();
    each_graph_is_layered();
    each_is_bounded();
}
