// The schema.
ghost use Rattle.std.specs.Prelude.{◌≡◌, ◌<◌, ◌≤◌, ◌-◌, ◌+◌, ◌++◌, ◌∷◌, [], ℕ, length, is_some, option_map, slice_get, Some, None, OnOk, OnErr, IfSome};
ghost use Rattle.std.specs.Vec.{vec_len, vec_capacity};
ghost use Rattle.chv_catalog.specs.Schemas.{definition_name, definitions_in, names_of, no_definitions, place_of, table_names, with_definition, MAX_DEFINITIONS};

use crate::names::Names;
use crate::{Definition, TableDef, ViewDef};
use std::alloc::{AllocError, Global};
use std::marker::Model;

/// The tables and views that stand, each in the order of creation: tables are numbered from 1, views from 0.
///
/// Room for a definition is made before it is accepted, so that accepting takes no memory.
#[derive(Drop)]
pub struct Schema {
    tables: Vec<TableDef>,
    views: Vec<ViewDef>,
    tables_by_name: Names,
    views_by_name: Names,
    room: Option<Vec<u8>>,
}

impl Model for Schema {
    ghost use Rattle.std.specs.Prelude.{List, Option, map, length, ◌≤◌, ◌<◌, ◌+◌, ◌≡◌, Some, None, option_map, ⊤};
    ghost use Rattle.chv_catalog.specs.Schemas.{Seen, MAX_DEFINITIONS, HasRoom, table_names, view_names};
    ghost use Rattle.std.specs.Coded.{codes};
    ghost use Rattle.chv_ast.specs.contracts.expr.Expr as expr;

    ghost Value = { Seen };

    ghost coded = { Prim.hlevel (codes, expr.the_row.coded) };

    ghost view = { λ s. record { catalog = record { tables = s.tables.items; views = s.views.items }; room = option_map (λ v. v.items) s.room } };

    ghost invariant = { λ s. record {
      few : length s.tables.items + length s.views.items ≤ MAX_DEFINITIONS;
      tables : s.tables_by_name.names ≡ table_names s.tables.items;
      views : s.views_by_name.names ≡ view_names s.views.items;
      room : HasRoom s.tables s.tables_by_name s.views s.views_by_name s.room;
    } };
}

impl Schema {
    /// No definitions.
    pub fn new(alloc: Global) -> Schema
        ensures { result ≡ record { catalog = no_definitions; room = None } }
    {
        Schema {
            tables: Vec::new(alloc),
            views: Vec::new(alloc),
            tables_by_name: Names::new(alloc),
            views_by_name: Names::new(alloc),
            room: None,
        }
    }

    /// Makes room for one definition of this name. Room for another name is given up.
    pub fn reserve_one(&mut self, alloc: Global, name: &[u8]) -> Result<(), AllocError>
        ensures catalog { self.new.catalog ≡ self.old.catalog }
        ensures room { OnOk result (self.new.room ≡ Some name.now) }
        ensures err { OnErr result (self.new ≡ self.old) }
    {
        let kept = Vec::from_slice(alloc, name)?;
        self.tables.reserve(1)?;
        self.views.reserve(1)?;
        self.tables_by_name.reserve_one()?;
        self.views_by_name.reserve_one()?;
        self.room = Some(kept);
        Ok(())
    }

    /// Puts a table behind the other tables, or a view behind the other views. It takes no memory.
    #[tactic(auto, using(crate::proofs::SchemaLemmas::new_among))]
    pub fn accept(&mut self, definition: Definition)
        requires room { self.old.room ≡ Some (definition_name definition) }
        requires free { place_of (definition_name definition) (names_of self.old.catalog) ≡ None }
        requires few { definitions_in self.old.catalog < MAX_DEFINITIONS }
        ensures { self.new ≡ record { catalog = with_definition definition self.old.catalog; room = None } }
    {
        let Some(name) = self.room.take() else { return };
        match definition {
            Definition::Table(def) => {
                self.tables_by_name.add(name);
                put(&mut self.tables, def);
            }
            Definition::View(def) => {
                self.views_by_name.add(name);
                put(&mut self.views, def);
            }
        }
    }

    /// The number of the table of a name; None exactly where no table has it.
    pub fn table(&self, name: &[u8]) -> Option<u32>
        ensures { result ≡ option_map (λ place. place + 1) (place_of name.now (table_names self.now.catalog.tables)) }
    {
        let place = self.place(name)?;
        Some(place as u32 + 1)
    }

    // The place of the table of a name.
    fn place(&self, name: &[u8]) -> Option<usize>
        ensures place { result ≡ place_of name.now (table_names self.now.catalog.tables) }
        ensures within { IfSome result (λ place. place < MAX_DEFINITIONS) }
    {
        self.tables_by_name.place(name)
    }

    /// Whether a table or a view has this name.
    #[tactic(auto, using(crate::proofs::SchemaLemmas::is_some_names))]
    pub fn taken(&self, name: &[u8]) -> bool
        ensures { result ≡ is_some (place_of name.now (names_of self.now.catalog)) }
    {
        self.tables_by_name.place(name).is_some() || self.views_by_name.place(name).is_some()
    }

    /// How many tables stand.
    pub fn tables(&self) -> u32
        ensures count { result ≡ length self.now.catalog.tables }
        ensures most { result ≤ MAX_DEFINITIONS }
    {
        self.tables.len() as u32
    }

    /// How many views stand.
    pub fn views(&self) -> u32
        ensures count { result ≡ length self.now.catalog.views }
        ensures most { result ≤ MAX_DEFINITIONS }
    {
        self.views.len() as u32
    }

    /// How many tables and views stand.
    pub fn definitions(&self) -> u32
        ensures { result ≡ definitions_in self.now.catalog }
    {
        (self.tables.len() + self.views.len()) as u32
    }

    /// The table of a number, which is one of the schema's.
    pub fn table_def(&self, table: u32) -> &TableDef
        requires first { 1 ≤ table }
        requires last { table ≤ length self.now.catalog.tables }
        ensures { slice_get self.now.catalog.tables (table - 1) ≡ Some result.now }
    {
        &self.tables[table as usize - 1]
    }

    /// The view of a number, which is one of the schema's.
    pub fn view_def(&self, view: u32) -> &ViewDef
        requires last { view < length self.now.catalog.views }
        ensures { slice_get self.now.catalog.views view ≡ Some result.now }
    {
        &self.views[view as usize]
    }
}

// Puts one more behind others, for which there is room.
fn put<T: Drop>(defs: &mut Vec<T>, def: T)
    requires room { vec_len defs.old < vec_capacity defs.old }
    ensures put { defs.new.items ≡ defs.old.items ++ def ∷ [] }
{
    match defs.push(def) {
        Ok(()) => {}
        Err(_) => {
            prove!(false);
        }
    }
}
