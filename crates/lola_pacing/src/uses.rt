//! The direct accesses and windows of a clause.

ghost use Rattle.std.specs.Prelude.{◌≡◌, ◌++◌, [], ◌∷◌, true, IfOk, OnOk};
ghost use Rattle.lola_model.specs.Parts.{listed_clause};
ghost use Rattle.lola_model.specs.PacingRefused.{access_use, used};
ghost use Rattle.lola_model.specs.declared.uses.Use.{Use as UseValue};
ghost use Rattle.lola_pacing.specs.Reading.{used_part};

use lola_model::expr::Access;
use lola_model::part::{PartVisitor, ReadPart};
use lola_model::spec::Clause;
use lola_model::uses::Use;
use lola_model::walk::visit_clause;
use lola_value::text::Memory;
use std::alloc::Global;

/// Puts one.
fn put(list: &mut Vec<Use>, part: Use) -> Result<(), Memory>
    ensures { OnOk result (list.new.items ≡ list.old.items ++ part ∷ []) }
{
    list.push(part)?;
    Ok(())
}

/// Puts an access, if it is direct.
fn put_access(list: &mut Vec<Use>, at: u32, stream: u32, access: Access) -> Result<(), Memory>
    ensures { OnOk result (list.new.items ≡ list.old.items ++ access_use at stream access) }
{
    match access {
        Access::Direct => put(list, Use::OfStream(at, stream)),
        Access::Get => Ok(()),
        Access::Hold => Ok(()),
        Access::Offset(_) => Ok(()),
    }
}

// What is put of a clause: its direct accesses and windows.
struct Used;

impl PartVisitor for Used {
    type Target = Vec<Use>;

    type Error = Memory;

    ghost ready = { λ _. Unit {0} };

    ghost may = { λ _. true };

    ghost takes = { λ _ part old new. new.items ≡ old.items ++ used_part part };

    fn visit(&self, part: ReadPart, list: &mut Vec<Use>) -> Result<(), Memory> {
        match part {
            ReadPart::Read { at, stream, access } => put_access(list, at, stream, access),
            ReadPart::Window { at, window } => put(list, Use::OfWindow(at, window)),
        }
    }
}

/// The direct accesses and windows of a clause, if there is one, in order.
pub fn uses_of(alloc: Global, clause: &Option<Clause>) -> Result<Vec<Use>, Memory>
    ensures { IfOk result (λ list. list.items ≡ listed_clause used clause.now) }
{
    let mut list = Vec::new(alloc);
    visit_clause(&Used, clause, &mut list)?;
    Ok(list)
}
