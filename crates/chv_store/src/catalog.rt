// How the catalog is read.
ghost use Rattle.std.specs.Prelude.{◌≡◌, ◌+◌, ◌*◌, ◌≤◌, List, ℕ, length, IfOk, IfSome, OnOk, IsErrOf};
ghost use Rattle.chv_ast.specs.declared.statement.Statement.{Statement};
ghost use Rattle.chv_catalog.specs.Schemas.{MAX_DEFINITIONS, definition_name, definitions_in, no_definitions};
ghost use Rattle.chv_gate.specs.Crashes.{Leaves, LeavesFrames};
ghost use Rattle.chv_gate.specs.GateLog.{HasFrames, frame_of};
ghost use Rattle.chv_part.specs.declared.damage.Damage.{Damage};
ghost use Rattle.chv_print.specs.StatementTexts.{statement_text};
ghost use Rattle.chv_site.specs.Effects.{OnlyReads, ChangesOnly};
ghost use Rattle.chv_site.specs.FileIds.{catalog_log};
ghost use Rattle.chv_site.specs.Outside.{bytes_in};
ghost use Rattle.chv_query.specs.Accepted.{IsCatalog};
ghost use Rattle.chv_store.specs.Damage.{IsCatalogDamage};
ghost use Rattle.chv_store.specs.Openings.{MakesDefinition, ReadsDefinition, LacksDefinition, HoldsCatalog, catalog_fault_of};
ghost use Rattle.chv_store.specs.Stores.{MAX_STEP};

use crate::defining::read_create;
use chv_catalog::{Definition, Schema};
use chv_gate::{GateFault, GateRead, Log, begin, step};
use chv_part::Damage;
use chv_site::{FileId, Site};
use chv_table::TableFault;
use std::alloc::Global;

/// Begins the catalog's log, and reads it once, statement by statement, into a schema that has nothing yet.
pub fn open_catalog<W: Site>(
    alloc: Global,
    site: &mut W,
    schema: &mut Schema,
) -> Result<Log, TableFault>
    requires { schema.old.catalog ≡ no_definitions }
    // On any site: statements define what is there, which are few, and have moved the gate of the catalog's log by so much at most.
    ensures log { IfOk result (λ log. (log.file ≡ catalog_log) × (log.gate ≤ MAX_STEP * definitions_in schema.new.catalog)) }
    ensures defined { OnOk result (IsCatalog schema.new.catalog × (definitions_in schema.new.catalog ≤ MAX_DEFINITIONS)) }
    // They are those of the log, which is not damaged.
    ensures holds { W.tells → IfOk result (λ log. HoldsCatalog schema.new.catalog log.gate (bytes_in (W.outside site.old) catalog_log) ((W.outside site.new).files catalog_log)) }
    ensures damaged { W.tells → (damage : Damage) → IsErrOf result (TableFault.Damaged damage) → IsCatalogDamage (bytes_in (W.outside site.old) catalog_log) damage }
    // A crash at any moment of the call leaves the frames of the log from before it.
    ensures during { W.tells → (payloads : List (List ℕ)) → LeavesFrames payloads ((W.outside site.old).files catalog_log)
        → Leaves catalog_log (HasFrames payloads) (W.outside site.old) (W.outside site.new) }
    // For every answer a log of two bytes or more keeps its bytes.
    ensures kept { W.tells → 2 ≤ length (bytes_in (W.outside site.old) catalog_log) → bytes_in (W.outside site.new) catalog_log ≡ bytes_in (W.outside site.old) catalog_log }
    ensures keeps { ChangesOnly W.tells (IsErrOf result TableFault.Failed) catalog_log (W.outside site.old) (W.outside site.new) }
{
    let file = FileId::catalog_log();
    begin(site, file)?;
    let mut gate = 0;
    'statements: loop {
        match read_definition(alloc, site, file, gate, schema)? {
            Some(DefinitionRead { definition, next }) => {
                schema.reserve_one(alloc, name_of(&definition))?;
                schema.accept(definition);
                gate = next;
            }
            None => return Ok(Log::at(file, gate)),
        }
    }
}

// The name of what is defined.
fn name_of(definition: &Definition) -> &[u8]
    ensures { result.now ≡ definition_name definition.now }
{
    match definition {
        Definition::Table(def) => def.name.as_slice(),
        Definition::View(def) => def.name.as_slice(),
    }
}

// What a text that was read makes, and the place of the gate behind the text.
#[derive(Drop)]
struct DefinitionRead {
    definition: Definition,
    next: u64,
}

// Reads the text of a definition behind a gate of the catalog's log, beside those that stand; None where the log ends
// there.
fn read_definition<W: Site>(
    alloc: Global,
    site: &mut W,
    log: FileId,
    gate: u64,
    schema: &Schema,
) -> Result<Option<DefinitionRead>, TableFault>
    ensures read { W.tells → IfOk result (λ read. ReadsDefinition schema.now.catalog gate (bytes_in (W.outside site.old) log) read) }
    ensures damaged { W.tells → (damage : Damage) → IsErrOf result (TableFault.Damaged damage)
        → (damage ≡ Damage.Catalog (gate + 1)) × LacksDefinition schema.now.catalog gate (bytes_in (W.outside site.old) log) }
    ensures makes { IfOk result (λ read. IfSome read (λ r. (create : Statement) × MakesDefinition schema.now.catalog create r.definition
        × (r.next ≡ gate + length (frame_of (statement_text create))))) }
    ensures keeps { OnlyReads W.tells (IsErrOf result TableFault.Failed) (W.outside site.old) (W.outside site.new) }
{
    match step(alloc, site, log, gate) {
        Ok(GateRead::End { .. }) => Ok(None),
        Ok(GateRead::Body { payload, next }) => match read_create(alloc, schema, &payload)? {
            Some(definition) => Ok(Some(DefinitionRead { definition, next })),
            None => Err(TableFault::Damaged(Damage::Catalog { at: gate + 1 })),
        },
        Err(fault) => Err(catalog_fault(fault)),
    }
}

// Why the catalog's log was not read on.
fn catalog_fault(fault: GateFault) -> TableFault
    ensures { result ≡ catalog_fault_of fault }
{
    match fault {
        GateFault::Failed => TableFault::Failed,
        GateFault::NoMemory => TableFault::NoMemory,
        GateFault::Damaged { at } => TableFault::Damaged(Damage::Catalog { at }),
    }
}
