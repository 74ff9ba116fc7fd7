//! Letting go of texts that nothing needs.

ghost use Rattle.std.specs.Prelude.{◌≡◌, ◌+◌, ◌*◌, ◌^◌, ◌≤◌, ◌++◌, IsTrue, OnOk, OnErr, length};
ghost use Rattle.lola_step_contents.specs.Ready.{HasTexts};
ghost use Rattle.lola_text.specs.Texts.{IsTable, swept};
ghost use Rattle.lola_engine.specs.Sweeps.{LetsGo, has_too_many, literals_from, needed};

use lola_model::plan::Plan;
use lola_text::TextTable;
use lola_text::ids::Ids;
use lola_text::store::TextStore;
use lola_value::text::Memory;
use lola_value::value::TextId;

/// Whether texts are to go before a row may bring up to 64 new ones: where the store keeps only what accesses need, and many more are
/// held than the newest sweep left.
fn is_full(bounded: bool, held: u64, left: u64) -> bool
    requires held { held ≤ 2 ^ 62 + 2 ^ 53 }
    requires left { left ≤ 2 ^ 62 + 2 ^ 53 }
    ensures { result ≡ has_too_many bounded held left }
{
    bounded && held + 64 > 2 * left + 1024
}

/// Appends the numbers of a plan's literals.
fn add_literals(plan: &Plan, ids: &mut Ids) -> Result<(), Memory>
    ensures { OnOk result (ids.new ≡ ids.old ++ literals_from 0 plan.now.spec.texts) }
{
    let count = plan.spec.texts.as_slice().len();
    for number in 0..count {
        ids.push(TextId(number as u64))?;
    }
    Ok(())
}

/// Lists the numbers of the texts that are needed, in place of those that stood in the list.
fn list_needed<S: TextStore>(plan: &Plan, store: &S, ids: &mut Ids) -> Result<(), Memory>
    ensures { OnOk result (ids.new ≡ needed (S.holds store.now) plan.now.spec.texts) }
{
    ids.clear();
    store.texts(ids)?;
    add_literals(plan, ids)?;
    Ok(())
}

/// Drops all texts but those with these numbers, and counts what is left.
fn sweep(texts: &mut TextTable, ids: &Ids, left: &mut u64)
    ensures texts { texts.new ≡ swept texts.old ids.now }
    ensures count { left.new ≡ length texts.new.held }
    ensures table { IsTable texts.new }
{
    texts.sweep(ids.as_slice());
    *left = texts.len();
}

/// Lets go of the texts that neither the store nor a literal needs, where too many are held. Where there is no memory for the list of
/// those that are needed, none goes.
pub(crate) fn let_go<S: TextStore>(
    plan: &Plan,
    store: &S,
    texts: &mut TextTable,
    ids: &mut Ids,
    left: &mut u64,
) -> Result<(), Memory>
    requires few { texts.old.given ≤ 2 ^ 62 + 2 ^ 53 }
    requires left { left.old ≤ 2 ^ 62 + 2 ^ 53 }
    ensures goes { OnOk result (LetsGo S.BOUNDED (S.holds store.now) plan.now.spec.texts texts.old left.old texts.new left.new) }
    ensures stays { OnErr result ((texts.new ≡ texts.old) × (left.new ≡ left.old)) }
    ensures room { OnOk result (IsTrue S.BOUNDED → length texts.new.held + 64 ≤ 2 * left.new + 1024) }
    ensures literals { HasTexts texts.old.held plan.now.spec.texts → HasTexts texts.new.held plan.now.spec.texts }
    ensures given { texts.new.given ≡ texts.old.given }
    ensures table { IsTable texts.new }
{
    let held = texts.len();
    if !is_full(S::BOUNDED, held, *left) {
        return Ok(());
    }
    list_needed(plan, store, ids)?;
    sweep(texts, ids, left);
    Ok(())
}
