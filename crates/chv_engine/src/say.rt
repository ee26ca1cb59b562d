// How damage is told.
ghost use Rattle.std.specs.Prelude.{◌≡◌, List};
ghost use Rattle.chv_catalog.specs.declared.table_def.TableDef.{TableDef};
ghost use Rattle.chv_engine.specs.Damage.{line_of, name_of, name_at};
ghost use Rattle.chv_engine.specs.Telling.{TellsFault};

use crate::damage::damage_line;
use chv_catalog::Schema;
use chv_flight::{RunFault, reply};
use chv_part::Damage;
use chv_site::Site;
use std::alloc::Global;

/// Where a fault is damage, says the line that tells it beside these tables. It answers the fault that ends the run.
pub fn tell<W: Site>(alloc: Global, site: &mut W, schema: &Schema, fault: RunFault) -> RunFault
    ensures { TellsFault W.tells (site.new ≡ site.old) schema.now.catalog.tables fault result (W.outside site.old) (W.outside site.new) }
{
    match fault {
        RunFault::Damaged(damage) => say_damage(alloc, site, schema, damage),
        _ => fault,
    }
}

// Says the line that tells a damage beside these tables. It answers the fault that ends the run.
fn say_damage<W: Site>(alloc: Global, site: &mut W, schema: &Schema, damage: Damage) -> RunFault
    ensures { TellsFault W.tells (site.new ≡ site.old) schema.now.catalog.tables (RunFault.Damaged damage) result (W.outside site.old) (W.outside site.new) }
{
    match damage_line(alloc, damage, name_of(schema, damage)) {
        Ok(line) => say_line(site, &line, damage),
        Err(_) => RunFault::NoMemory,
    }
}

// Says a line that tells a damage. It answers the fault that ends the run.
fn say_line<W: Site>(site: &mut W, line: &[u8], damage: Damage) -> RunFault
    ensures { (tables : List TableDef) → line.now ≡ line_of tables damage
        → TellsFault W.tells (site.new ≡ site.old) tables (RunFault.Damaged damage) result (W.outside site.old) (W.outside site.new) }
{
    match reply(site, line, true) {
        Ok(_) => RunFault::Damaged(damage),
        Err(fault) => fault,
    }
}

// The name that goes with a damage: that of its table.
fn name_of(schema: &Schema, damage: Damage) -> &[u8]
    ensures { result.now ≡ name_of schema.now.catalog.tables damage }
{
    match damage {
        Damage::Catalog { .. } => &[],
        Damage::Log { table, .. }
        | Damage::PartHash { table, .. }
        | Damage::PartShape { table, .. } => name_at(schema, table),
    }
}

// The name of the table of a number, where it stands.
fn name_at(schema: &Schema, table: u32) -> &[u8]
    ensures { result.now ≡ name_at schema.now.catalog.tables table }
{
    if table == 0 || table > schema.tables() {
        return &[];
    }
    schema.table_def(table).name.as_slice()
}
