// How a store is opened.
ghost use Rattle.std.specs.Prelude.{◌≡◌, ◌<◌, List, ℕ, length, map, IfOk, IfErr, IsErrOf, OnOk};
ghost use Rattle.std.specs.List.{All};
ghost use Rattle.chv_catalog.specs.Schemas.{kinds_of};
ghost use Rattle.chv_query.specs.Accepted.{Accepted, IsSchema, catalog_of, tables_of, catalog_payload};
ghost use Rattle.chv_part.specs.Books.{AreColumns, Book};
ghost use Rattle.chv_part.specs.Forms.{form_of};
ghost use Rattle.chv_part.specs.declared.damage.Damage.{Damage};
ghost use Rattle.chv_site.specs.During.{During};
ghost use Rattle.chv_site.specs.FileIds.{catalog_log, table_log};
ghost use Rattle.chv_site.specs.Outside.{bytes_in};
ghost use Rattle.chv_table.specs.Tables.{HoldsBook, IsPlaced as IsTablePlaced};
ghost use Rattle.chv_store.specs.Calls.{BeginsLogs, StandsLeft};
ghost use Rattle.chv_store.specs.Damage.{IsFirstDamage};
ghost use Rattle.chv_store.specs.Holding.{FilesSettle, HoldsBooks};
ghost use Rattle.chv_store.specs.Openings.{OpensTable, OpensAs, FailsOpening, IsOpeningFault};
ghost use Rattle.chv_store.specs.Stores.{EachTable, IsHeldAs, IsUsable};

use crate::catalog::open_catalog;
use crate::{OpenFault, Store};
use chv_catalog::Schema;
use chv_site::Site;
use chv_table::{Table, TableFault, open_table};
use std::alloc::Global;

/// The number of the first table.
pub const FIRST_TABLE: u32 = 1;

/// Opens the store: begins the catalog's log and reads it, and then that of each table, each of them once.
///
/// It says nothing. After an `Err` the store may be opened again.
pub fn open_store<W: Site>(alloc: Global, site: &mut W) -> Result<Store, OpenFault>
    ensures usable { IfOk result (λ store. IsUsable W.tells store (W.outside site.new)) }
    ensures holds { W.tells → IfOk result (λ store. (schema : List Accepted) (books : ℕ → Book) → IsSchema schema
        → FilesSettle (W.outside site.old).files (map catalog_payload schema) (map form_of (tables_of schema)) books
        → HoldsBooks store (W.outside site.new).files (map catalog_payload schema) books × (store.schema.catalog ≡ catalog_of schema)) }
    // No log is damaged, and it holds what they say.
    ensures opened { W.tells → IfOk result (λ store. OpensAs store (bytes_in (W.outside site.old)) (W.outside site.new).files) }
    // The logs of other tables stay as they were.
    ensures others { W.tells → IfOk result (λ store. (table : ℕ) → length store.schema.catalog.tables < table → (W.outside site.new).files (table_log table) ≡ (W.outside site.old).files (table_log table)) }
    ensures damaged { W.tells → IfErr result (λ why. IsOpeningFault (bytes_in (W.outside site.old)) why) }
    // A crash at any moment of the call leaves files that stand for what they stood for.
    ensures during { W.tells → (schema : List Accepted) (books : ℕ → Book) → IsSchema schema
        → FilesSettle (W.outside site.old).files (map catalog_payload schema) (map form_of (tables_of schema)) books
        → During (W.outside site.old) (W.outside site.new) (StandsLeft (map catalog_payload schema) (map form_of (tables_of schema)) books (W.outside site.old).said) }
    ensures keeps { BeginsLogs W.tells (FailsOpening result) (W.outside site.old) (W.outside site.new) }
{
    let mut schema = Schema::new(alloc);
    let catalog = match open_catalog(alloc, site, &mut schema) {
        Ok(log) => log,
        Err(fault) => return Err(OpenFault { fault, schema }),
    };
    match open_tables(alloc, site, &schema) {
        Ok(tables) => Ok(Store {
            catalog,
            schema,
            tables,
        }),
        Err(fault) => Err(OpenFault { fault, schema }),
    }
}

// Opens the tables of a schema, in the order of their numbers.
fn open_tables<W: Site>(
    alloc: Global,
    site: &mut W,
    schema: &Schema,
) -> Result<Vec<Table>, TableFault>
    requires columns { All (λ def. AreColumns (kinds_of def)) schema.now.catalog.tables }
    ensures within { IfOk result (λ tables. EachTable IsHeldAs 1 schema.now.catalog.tables tables.items) }
    ensures placed { W.tells → IfOk result (λ tables. All (λ table. IsTablePlaced table (W.outside site.new).files) tables.items) }
    ensures holds { W.tells → IfOk result (λ tables. (payloads : List (List ℕ)) (books : ℕ → Book)
        → FilesSettle (W.outside site.old).files payloads (map form_of schema.now.catalog.tables) books
        → EachTable (λ number def table. HoldsBook table (W.outside site.new).files (books number)) 1 schema.now.catalog.tables tables.items
        × FilesSettle (W.outside site.new).files payloads (map form_of schema.now.catalog.tables) books) }
    ensures opened { W.tells → IfOk result (λ tables. EachTable (OpensTable (bytes_in (W.outside site.old)) (W.outside site.new).files) 1 schema.now.catalog.tables tables.items) }
    ensures others { W.tells → OnOk result ((table : ℕ) → length schema.now.catalog.tables < table → (W.outside site.new).files (table_log table) ≡ (W.outside site.old).files (table_log table)) }
    ensures damaged { W.tells → (damage : Damage) → IsErrOf result (TableFault.Damaged damage) → IsFirstDamage schema.now.catalog.tables (bytes_in (W.outside site.old)) damage }
    // A crash at any moment of the call leaves files that stand for what they stood for.
    ensures during { W.tells → (payloads : List (List ℕ)) (books : ℕ → Book)
        → FilesSettle (W.outside site.old).files payloads (map form_of schema.now.catalog.tables) books
        → During (W.outside site.old) (W.outside site.new) (StandsLeft payloads (map form_of schema.now.catalog.tables) books (W.outside site.old).said) }
    ensures catalog { W.tells → (W.outside site.new).files catalog_log ≡ (W.outside site.old).files catalog_log }
    ensures keeps { BeginsLogs W.tells (IsErrOf result TableFault.Failed) (W.outside site.old) (W.outside site.new) }
{
    let count = schema.tables();
    let mut tables = Vec::new(alloc);
    for number in FIRST_TABLE..count + 1 {
        let table = open_table(alloc, site, number, schema.table_def(number))?;
        if tables.push(table).is_err() {
            return Err(TableFault::NoMemory);
        }
    }
    Ok(tables)
}
