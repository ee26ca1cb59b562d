// The rows of a table.
ghost use Rattle.std.specs.Prelude.{◌≡◌, ◌≤◌, ℕ, IfOk, OnOk, IsErrOf};
ghost use Rattle.std.specs.List.{All, flat_map};
ghost use Rattle.chv_site.specs.Effects.{OnlyReads};
ghost use Rattle.chv_site.specs.FileIds.{part_of};
ghost use Rattle.chv_site.specs.Outside.{bytes_in};
ghost use Rattle.chv_commit.specs.declared.part_row.PartRow.{PartRow as LivePart};
ghost use Rattle.chv_part.specs.Books.{AreColumns, TableForm, Book, IsLawfulBook, normal_rows, rows_in, part_rows};
ghost use Rattle.chv_part.specs.Parts.{IsPartFile};
ghost use Rattle.chv_part.specs.Standing.{IsPart};
ghost use Rattle.chv_part.specs.declared.damage.Damage.{Damage};
ghost use Rattle.chv_block.specs.Spellings.{AllAreOf};
ghost use Rattle.chv_table.specs.Damage.{IsDamageOfPart, IsPartDamage, ArePartsWhole};
ghost use Rattle.chv_table.specs.Faults.{part_fault_of};
ghost use Rattle.chv_table.specs.Tables.{IsWithin, HoldsBook, held_form, held_state};

use crate::{Table, TableFault};
use chv_commit::PartRow;
use chv_merge::normal_by;
use chv_part::{Damage, PartFault, read_part};
use chv_site::{FileId, Site};
use chv_types::{Block, Kinds, Row};
use std::alloc::{AllocError, Global};

impl Table {
    /// All rows, in normal form. Each live part is read once, and no file changes.
    ///
    /// Damage is told of the first live part that is damaged.
    pub fn rows<W: Site>(&self, alloc: Global, site: &mut W) -> Result<Block, TableFault>
        requires within { IsWithin self.now }
        ensures rows { W.tells → IfOk result (λ rows. (book : Book) → HoldsBook self.now (W.outside site.old).files book → rows ≡ normal_rows (held_form self.now) (rows_in book)) }
        ensures kinds { IfOk result (λ rows. AllAreOf self.now.kinds rows) }
        ensures whole { W.tells → OnOk result (ArePartsWhole self.now.number (held_form self.now) (held_state self.now).layout (bytes_in (W.outside site.old))) }
        ensures damaged { W.tells → (damage : Damage) → IsErrOf result (TableFault.Damaged damage)
            → IsPartDamage self.now.number (held_form self.now) (held_state self.now).layout (bytes_in (W.outside site.old)) damage }
        ensures keeps { OnlyReads W.tells (IsErrOf result TableFault.Failed) (W.outside site.old) (W.outside site.new) }
    {
        self.normal_rows(alloc, site, self.replay.layout())
    }

    /// The rows of live parts together, in normal form.
    pub(crate) fn normal_rows<W: Site>(
        &self,
        alloc: Global,
        site: &mut W,
        parts: &[PartRow],
    ) -> Result<Block, TableFault>
        requires columns { AreColumns self.now.kinds }
        ensures rows { W.tells → IfOk result (λ rows. (book : Book) → IsLawfulBook (held_form self.now) book
            → All (IsPart (bytes_in (W.outside site.old)) self.now.number (held_form self.now) book) parts.now
            → rows ≡ normal_rows (held_form self.now) (flat_map (λ (row : LivePart). part_rows (held_form self.now) book row.lo row.hi) parts.now)) }
        ensures kinds { IfOk result (λ rows. AllAreOf self.now.kinds rows) }
        ensures whole { W.tells → OnOk result (ArePartsWhole self.now.number (held_form self.now) parts.now (bytes_in (W.outside site.old))) }
        ensures damaged { W.tells → (damage : Damage) → IsErrOf result (TableFault.Damaged damage)
            → IsPartDamage self.now.number (held_form self.now) parts.now (bytes_in (W.outside site.old)) damage }
        ensures keeps { OnlyReads W.tells (IsErrOf result TableFault.Failed) (W.outside site.old) (W.outside site.new) }
    {
        let rows = self.read_parts(alloc, site, parts)?;
        Ok(normal_by(
            alloc,
            self.engine,
            &self.kinds,
            &self.key,
            Block::from_vec(rows),
        )?)
    }

    // The rows of live parts, part by part.
    fn read_parts<W: Site>(
        &self,
        alloc: Global,
        site: &mut W,
        parts: &[PartRow],
    ) -> Result<Vec<Row>, TableFault>
        requires columns { AreColumns self.now.kinds }
        ensures rows { W.tells → IfOk result (λ rows. (book : Book) → IsLawfulBook (held_form self.now) book
            → All (IsPart (bytes_in (W.outside site.old)) self.now.number (held_form self.now) book) parts.now
            → rows.items ≡ flat_map (λ (row : LivePart). part_rows (held_form self.now) book row.lo row.hi) parts.now) }
        ensures kinds { IfOk result (λ rows. AllAreOf self.now.kinds rows.items) }
        ensures whole { W.tells → OnOk result (ArePartsWhole self.now.number (held_form self.now) parts.now (bytes_in (W.outside site.old))) }
        ensures damaged { W.tells → (damage : Damage) → IsErrOf result (TableFault.Damaged damage)
            → IsPartDamage self.now.number (held_form self.now) parts.now (bytes_in (W.outside site.old)) damage }
        ensures keeps { OnlyReads W.tells (IsErrOf result TableFault.Failed) (W.outside site.old) (W.outside site.new) }
    {
        let mut rows = Vec::new(alloc);
        for row in parts {
            let read = read_live_part(alloc, site, self.number, row.part, &self.kinds)?;
            rows.append(&mut read.into_vec())?;
        }
        Ok(rows)
    }
}

// The rows of one live part of a table with columns of these kinds.
fn read_live_part<W: Site>(
    alloc: Global,
    site: &mut W,
    table: u32,
    part: u64,
    kinds: &Kinds,
) -> Result<Block, TableFault>
    requires columns { AreColumns kinds.now }
    ensures read { W.tells → IfOk result (λ rows. (form : TableForm) → form.kinds ≡ kinds.now → IsPartFile form rows (bytes_in (W.outside site.old) (part_of table part))) }
    ensures kinds { IfOk result (λ rows. AllAreOf kinds.now rows) }
    ensures damaged { W.tells → (damage : Damage) → IsErrOf result (TableFault.Damaged damage) → (form : TableForm) → form.kinds ≡ kinds.now
        → IsDamageOfPart table form part (bytes_in (W.outside site.old) (part_of table part)) damage }
    ensures keeps { OnlyReads W.tells (IsErrOf result TableFault.Failed) (W.outside site.old) (W.outside site.new) }
{
    match read_part(alloc, site, FileId::part(table, part), kinds) {
        Ok(rows) => Ok(rows),
        Err(fault) => Err(part_fault(table, part, fault)),
    }
}

// Why a part was not read, as a fault of its table.
fn part_fault(table: u32, part: u64, fault: PartFault) -> TableFault
    ensures { result ≡ part_fault_of table part fault }
{
    match fault {
        PartFault::Failed => TableFault::Failed,
        PartFault::Hash { kept, found } => TableFault::Damaged(Damage::PartHash {
            table,
            part,
            kept,
            found,
        }),
        PartFault::Shape => TableFault::Damaged(Damage::PartShape { table, part }),
        PartFault::NoMemory => TableFault::NoMemory,
    }
}
