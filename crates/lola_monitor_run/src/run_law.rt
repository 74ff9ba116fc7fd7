//! Laws of what is put to a sink, of the numbers of an entry, and of runs that took no row. A law is a function that does nothing: what
//! it ensures is the law, and its proof is proved with the crate.

ghost use Rattle.std.specs.Prelude.{◌≡◌, ◌<◌, ◌^◌, ℕ, List, [], ◌++◌, None};
ghost use Rattle.lola_port.specs.States.{SinkState, grown};
ghost use Rattle.lola_monitor_run.specs.Verdicts.{Setting, fault_in, verdicts};

use lola_model::journal::Entry;

/// A text that is put in two parts is put as one, and to put nothing changes nothing.
pub fn puts_add_up()
    ensures parts { (sink : SinkState) (first second : List ℕ) → grown (grown sink first) second ≡ grown sink (first ++ second) }
    ensures nothing { (sink : SinkState) → grown sink [] ≡ sink }
{}

/// The source and the number of an entry are in the ranges of their types.
pub fn numbers_are_in_range(entry: &Entry)
    ensures source { entry.now.row.source < 2 ^ 32 }
    ensures number { entry.now.row.number < 2 ^ 64 }
{
    let _source = entry.row.source;
    let _number = entry.row.number;
}

/// Where no row was taken there is no verdict and no fault.
pub fn no_rows_have_no_verdicts()
    ensures verdicts { (s : Setting) → verdicts s [] ≡ [] }
    ensures faults { (s : Setting) → fault_in s [] ≡ None }
{}
