//! The laws, about definitions alone.

ghost use Rattle.lola_front_law.specs.Meaning.{EntriesAreSame, ModelsAreSame, OutcomesAreSame, StoresAreSame, VerdictsAreSame};

/// Expressions that differ in addresses alone have the same outcome, whatever they see and whatever the parameters are. So it is under
/// specifications that differ in addresses alone.
pub fn outcomes_are_same()
    ensures { OutcomesAreSame }
{}

/// Of plans that differ in addresses alone, the streams have the same names, places, sorts, messages, kinds and parameters, and an
/// entry of a journal that a line of the trace of the one can tell, a line of the trace of the other can tell.
pub fn entries_are_same()
    ensures { EntriesAreSame }
{}

/// For plans that differ in addresses alone a store has the same layout, and after each table it stands for the same content: the same
/// instances live, with the same values.
pub fn stores_are_same()
    ensures { StoresAreSame }
{}

/// Of plans that differ in addresses alone, the models are the same: after each table the same step comes next, a table solves the
/// equations of the one exactly where it solves those of the other, over each list of steps and over each journal, and the same
/// table is made, with the same instances and outcomes.
pub fn models_are_same()
    ensures { ModelsAreSame }
{}

/// Of plans that differ in addresses alone, the same verdict lines are written of each journal, whatever is shown, up to its last row
/// and of its whole; and the same fault is told, of the same stream, of the same kind and at the same time.
pub fn verdicts_are_same()
    ensures { VerdictsAreSame }
{}
