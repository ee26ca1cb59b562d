// How tables and views are made.
ghost use Rattle.std.specs.Prelude.{◌≡◌, ◌≤◌, ◌+◌, ◌++◌, [], ◌∷◌, List, ℕ, length, OnOk, IsErrOf};
ghost use Rattle.chv_catalog.specs.Schemas.{with_definition};
ghost use Rattle.chv_catalog.specs.declared.definition.Definition.TheVariants as definition;
ghost use Rattle.chv_commit.specs.Replays.{no_state};
ghost use Rattle.chv_commit.specs.declared.commit.Commit.{Commit};
ghost use Rattle.chv_part.specs.Books.{Book, no_book};
ghost use Rattle.chv_part.specs.Forms.{form_of};
ghost use Rattle.chv_site.specs.Effects.{ChangesOnly};
ghost use Rattle.chv_site.specs.FileIds.{catalog_log, table_log};
ghost use Rattle.chv_store.specs.Calls.{ChangesLogs, StandsFor, Turns};
ghost use Rattle.chv_store.specs.Holding.{HoldsBooks, HoldsLogs, with_book, with_one};
ghost use Rattle.chv_store.specs.Openings.{TextMakes};
ghost use Rattle.chv_store.specs.Stores.{HasRoom, IsUsable, forms_of, states_of};

use crate::Store;
use chv_catalog::{Definition, TableDef, ViewDef};
use chv_gate::frame;
use chv_site::Site;
use chv_table::{PutFault, begin_table};
use std::alloc::Global;

impl Store {
    /// Makes the table that a statement defines, whose canonical text is `text`: the table's log is begun, and then the text is
    /// appended to the catalog's log. All memory is taken before the first call of the site. After an `Err` the store is not used again.
    pub fn create<W: Site>(
        &mut self,
        alloc: Global,
        site: &mut W,
        text: &[u8],
        def: TableDef,
    ) -> Result<(), PutFault>
        requires usable { IsUsable W.tells self.old (W.outside site.old) }
        requires makes { TextMakes self.old.schema.catalog text.now (definition.Table def) }
        // The table's book is empty; a crash at any moment of the call leaves the store with the table or without.
        ensures created { W.tells → (payloads : List (List ℕ)) (books : ℕ → Book) → HoldsBooks self.old (W.outside site.old).files payloads books
            → Turns result (HoldsBooks self.new (W.outside site.new).files (payloads ++ text.now ∷ []) (with_book (length self.old.schema.catalog.tables + 1) no_book books))
            (StandsFor payloads (forms_of self.old) books)
            (StandsFor (payloads ++ text.now ∷ []) (forms_of self.old ++ form_of def ∷ []) (with_book (length self.old.schema.catalog.tables + 1) no_book books))
            (W.outside site.old) (W.outside site.new) }
        ensures logged { W.tells → (payloads : List (List ℕ)) (commits : ℕ → List Commit) → HoldsLogs self.old (W.outside site.old).files payloads commits
            → ((W.outside site.old).files (table_log (length self.old.schema.catalog.tables + 1))).most ≤ 1
            → OnOk result (HoldsLogs self.new (W.outside site.new).files (payloads ++ text.now ∷ []) (with_one (length self.old.schema.catalog.tables + 1) [] commits)) }
        ensures held { OnOk result ((self.new.schema.catalog ≡ with_definition (definition.Table def) self.old.schema.catalog) × (states_of self.new ≡ states_of self.old ++ no_state ∷ [])) }
        // Room that a table has stays.
        ensures rooms { OnOk result ((table count : ℕ) → HasRoom count self.old table → HasRoom count self.new table) }
        ensures usable { OnOk result (IsUsable W.tells self.new (W.outside site.new)) }
        ensures keeps { ChangesLogs W.tells (IsErrOf result PutFault.Failed) (length self.old.schema.catalog.tables + 1) (W.outside site.old) (W.outside site.new) }
    {
        let framed = frame(alloc, text)?;
        self.schema.reserve_one(alloc, def.name.as_slice())?;
        self.tables.reserve(1)?;
        let number = self.schema.tables() + 1;
        let table = begin_table(alloc, site, number, &def)?;
        self.catalog.append(site, &framed)?;
        self.schema.accept(Definition::Table(def));
        match self.tables.push(table) {
            Ok(()) => Ok(()),
            Err(_) => {
                prove!(false);
                Err(PutFault::NoMemory)
            }
        }
    }

    /// Makes the view that a statement defines, whose canonical text is `text`: the text is appended to the catalog's log.
    /// All memory is taken before the first call of the site. After an `Err` the store is not used again.
    pub fn create_view<W: Site>(
        &mut self,
        alloc: Global,
        site: &mut W,
        text: &[u8],
        def: ViewDef,
    ) -> Result<(), PutFault>
        requires usable { IsUsable W.tells self.old (W.outside site.old) }
        requires makes { TextMakes self.old.schema.catalog text.now (definition.View def) }
        // The books stay; a crash at any moment of the call leaves the store with the view or without.
        ensures created { W.tells → (payloads : List (List ℕ)) (books : ℕ → Book) → HoldsBooks self.old (W.outside site.old).files payloads books
            → Turns result (HoldsBooks self.new (W.outside site.new).files (payloads ++ text.now ∷ []) books)
            (StandsFor payloads (forms_of self.old) books) (StandsFor (payloads ++ text.now ∷ []) (forms_of self.old) books) (W.outside site.old) (W.outside site.new) }
        ensures logged { W.tells → (payloads : List (List ℕ)) (commits : ℕ → List Commit) → HoldsLogs self.old (W.outside site.old).files payloads commits
            → OnOk result (HoldsLogs self.new (W.outside site.new).files (payloads ++ text.now ∷ []) commits) }
        ensures held { OnOk result ((self.new.schema.catalog ≡ with_definition (definition.View def) self.old.schema.catalog) × (states_of self.new ≡ states_of self.old)) }
        // Room that a table has stays.
        ensures rooms { OnOk result ((table count : ℕ) → HasRoom count self.old table → HasRoom count self.new table) }
        ensures usable { OnOk result (IsUsable W.tells self.new (W.outside site.new)) }
        ensures keeps { ChangesOnly W.tells (IsErrOf result PutFault.Failed) catalog_log (W.outside site.old) (W.outside site.new) }
    {
        let spelled = frame(alloc, text)?;
        self.schema.reserve_one(alloc, def.name.as_slice())?;
        self.catalog.append(site, &spelled)?;
        self.schema.accept(Definition::View(def));
        Ok(())
    }
}
