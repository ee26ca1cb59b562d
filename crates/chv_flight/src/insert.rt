// A delivery.
ghost use Rattle.std.specs.Prelude.{◌≡◌, ◌≢◌, ◌≤◌, ◌+◌, ℕ, [], ◌∷◌, IfOk, OnOk, IsErr};
ghost use Rattle.chv_history.specs.Kept.{Kept};
ghost use Rattle.chv_history.specs.KeptTurns.{written_kept};
ghost use Rattle.chv_query.specs.Plans.{Delivery as Planned};
ghost use Rattle.chv_plan.specs.Deliveries.{Delivers as IsHeldAs};
ghost use Rattle.chv_site.specs.Faults.{CountsDisk};
ghost use Rattle.chv_store.specs.Stores.{HasRoom, IsUsable};
ghost use Rattle.chv_flight.specs.Answers.{HoldsKept};
ghost use Rattle.chv_flight.specs.Deliveries.{Delivers};

use chv_plan::Delivery;
use chv_site::{Failed, Site};
use chv_store::Store;
use chv_table::Delivered;

/// Makes a delivery; answers how many blocks were written, 1 or 0. After an `Err` the store is not used again.
pub fn deliver<W: Site>(site: &mut W, store: &mut Store, delivery: &Delivery) -> Result<u64, Failed>
    requires usable { IsUsable W.tells store.old (W.outside site.old) }
    requires planned { (planned : Planned) × IsHeldAs store.old.schema.catalog delivery.now planned }
    requires room { HasRoom 1 store.old delivery.now.table }
    ensures delivers { (planned : Planned) → IsHeldAs store.old.schema.catalog delivery.now planned
        → Delivers W.tells (planned ∷ []) result store.old store.new (W.outside site.old) (W.outside site.new) }
    ensures counted { IfOk result (λ written. written ≤ 1) }
    ensures noted { IfOk result (λ written. (planned : Planned) → IsHeldAs store.old.schema.catalog delivery.now planned
        → (kept : Kept) → HoldsKept store.old kept → written ≡ written_kept kept planned) }
    ensures usable { OnOk result (IsUsable W.tells store.new (W.outside site.new)) }
    ensures room { OnOk result ((count : ℕ) → HasRoom (count + 1) store.old delivery.now.table → HasRoom count store.new delivery.now.table) }
    ensures rooms { OnOk result ((other count : ℕ) → other ≢ delivery.now.table → HasRoom count store.old other → HasRoom count store.new other) }
    ensures schema { OnOk result (store.new.schema ≡ store.old.schema) }
    ensures counts { CountsDisk (IsErr result) (W.outside site.old) (W.outside site.new) }
{
    let encoded = delivery.encoded.as_slice();
    match store.deliver(site, delivery.table, delivery.id, delivery.rows, encoded)? {
        Delivered::Written => Ok(1),
        Delivered::Skipped => Ok(0),
    }
}
