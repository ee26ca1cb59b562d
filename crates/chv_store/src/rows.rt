// The rows of a table.
ghost use Rattle.std.specs.Prelude.{◌≡◌, ◌-◌, List, ℕ, Some, slice_get, IfOk, OnOk, IsErrOf};
ghost use Rattle.chv_catalog.specs.declared.table_def.TableDef.{TableDef};
ghost use Rattle.chv_part.specs.Books.{Book, normal_rows, rows_in};
ghost use Rattle.chv_block.specs.Spellings.{AllAreOf};
ghost use Rattle.chv_catalog.specs.Schemas.{kinds_of};
ghost use Rattle.chv_part.specs.Forms.{form_of};
ghost use Rattle.chv_part.specs.declared.damage.Damage.{Damage};
ghost use Rattle.chv_site.specs.Effects.{OnlyReads};
ghost use Rattle.chv_site.specs.Outside.{bytes_in};
ghost use Rattle.chv_table.specs.Damage.{ArePartsWhole, IsPartDamage};
ghost use Rattle.chv_store.specs.Holding.{HoldsBooks};
ghost use Rattle.chv_store.specs.Stores.{IsTable, IsWithin, state_of};

use crate::Store;
use chv_site::Site;
use chv_table::TableFault;
use chv_types::Block;
use std::alloc::Global;

impl Store {
    /// All rows of the table of a number, in normal form. Each live part is read once.
    ///
    /// Damage is told of the first live part that is damaged.
    pub fn rows<W: Site>(
        &self,
        alloc: Global,
        site: &mut W,
        table: u32,
    ) -> Result<Block, TableFault>
        requires within { IsWithin self.now }
        requires table { IsTable self.now table }
        ensures rows { W.tells → IfOk result (λ rows. (def : TableDef) → slice_get self.now.schema.catalog.tables (table - 1) ≡ Some def → (payloads : List (List ℕ)) (books : ℕ → Book)
            → HoldsBooks self.now (W.outside site.old).files payloads books → rows ≡ normal_rows (form_of def) (rows_in (books table))) }
        ensures kinds { IfOk result (λ rows. (def : TableDef) → slice_get self.now.schema.catalog.tables (table - 1) ≡ Some def → AllAreOf (kinds_of def) rows) }
        ensures whole { W.tells → OnOk result ((def : TableDef) → slice_get self.now.schema.catalog.tables (table - 1) ≡ Some def
            → ArePartsWhole table (form_of def) (state_of self.now table).layout (bytes_in (W.outside site.old))) }
        ensures damaged { W.tells → (damage : Damage) → IsErrOf result (TableFault.Damaged damage) → (def : TableDef) → slice_get self.now.schema.catalog.tables (table - 1) ≡ Some def
            → IsPartDamage table (form_of def) (state_of self.now table).layout (bytes_in (W.outside site.old)) damage }
        ensures keeps { OnlyReads W.tells (IsErrOf result TableFault.Failed) (W.outside site.old) (W.outside site.new) }
    {
        self.tables[table as usize - 1].rows(alloc, site)
    }
}
