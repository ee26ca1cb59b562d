// How a script is run.
ghost use Rattle.std.specs.Prelude.{◌≡◌, ◌⊎◌, List, ℕ, IfOk, IsErrOf};
ghost use Rattle.chv_history.specs.Guarantees.{IsLeftWhole};
ghost use Rattle.chv_history.specs.Histories.{History, Settles};
ghost use Rattle.chv_history.specs.Kept.{Kept, Refuses};
ghost use Rattle.chv_history.specs.Script.{requests_of};
ghost use Rattle.chv_part.specs.declared.damage.Damage.{Damage};
ghost use Rattle.chv_site.specs.During.{During};
ghost use Rattle.chv_site.specs.Outside.{bytes_in};
ghost use Rattle.chv_store.specs.Stores.{IsUsable};
ghost use Rattle.chv_store.specs.declared.store.Store.{Store as SomeStore};
ghost use Rattle.chv_flight.specs.Faults.{CountsRun};
ghost use Rattle.chv_engine.specs.Damage.{HasKept, IsOpeningDamaged, FirstMeets};
ghost use Rattle.chv_engine.specs.Ends.{EndsAt, SaysDamage};
ghost use Rattle.chv_engine.specs.Telling.{RunsAll, TellsOrFails};

use crate::say::tell;
use chv_flight::{Flight, RunFault};
use chv_site::Site;
use chv_store::{Store, open_store};
use chv_types::Bytes;
use std::alloc::Global;

/// Runs a script on the store that the site holds; true where a statement was refused.
pub fn run_script<W: Site>(alloc: Global, site: &mut W, script: Bytes) -> Result<bool, RunFault>
    ensures ended { W.tells → (history : History) → Settles (W.outside site.old).files history
        → IfOk result (EndsAt (requests_of script) history (W.outside site.old) (W.outside site.new)) }
    // Whatever the files stand for, whether a statement is refused follows from the script and what the logs say; of a query that
    // no check refuses it follows from the rows, where it may divide by zero.
    ensures refused { W.tells → IfOk result (λ refused. (kept : Kept) → HasKept (bytes_in (W.outside site.old)) kept → Refuses (requests_of script) kept refused) }
    // A crash at any moment of the call leaves files and a text of one moment of the run, which holds what was acknowledged.
    ensures during { W.tells → (history : History) → Settles (W.outside site.old).files history → During (W.outside site.old) (W.outside site.new)
        (IsLeftWhole (requests_of script) history (W.outside site.old).said) }
    // Damage is told where a file is damaged, and never where the files stand for a history.
    ensures damaged { W.tells → (damage : Damage) → IsErrOf result (RunFault.Damaged damage) → SaysDamage (W.outside site.old) (W.outside site.new) }
    ensures undamaged { W.tells → (history : History) (damage : Damage) → Settles (W.outside site.old).files history → ¬ IsErrOf result (RunFault.Damaged damage) }
    ensures meets { W.tells → (line : List ℕ) → IsOpeningDamaged (bytes_in (W.outside site.old)) line ⊎ FirstMeets (bytes_in (W.outside site.old)) (requests_of script) line
        → TellsOrFails result (W.outside site.old).said (W.outside site.new).said line }
    ensures counts { CountsRun result (W.outside site.old) (W.outside site.new) }
{
    match open_store(alloc, site) {
        Ok(store) => run_open(alloc, site, store, script),
        Err(why) => Err(tell(alloc, site, &why.schema, RunFault::from(why.fault))),
    }
}

// Runs a script on an open store, and tells the damage that it meets; true where a statement was refused.
fn run_open<W: Site>(
    alloc: Global,
    site: &mut W,
    store: Store,
    script: Bytes,
) -> Result<bool, RunFault>
    requires usable { IsUsable W.tells store (W.outside site.old) }
    ensures { (is : SomeStore) × RunsAll W.tells (requests_of script) result store is (W.outside site.old) (W.outside site.new) }
{
    let mut flight = Flight::new(alloc, store, script)?;
    match flight.drain(site) {
        Ok(refused) => Ok(refused),
        Err(fault) => Err(tell(alloc, site, flight.schema(), fault)),
    }
}
