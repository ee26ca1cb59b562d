// Parts that are no longer live.
ghost use Rattle.std.specs.Prelude.{IsErr};
ghost use Rattle.chv_site.specs.During.{During};
ghost use Rattle.chv_table.specs.Merging.{ChangesParts, IsLeftBut};

use chv_commit::PartRow;
use chv_site::{Failed, FileId, Site};

/// Discards the files of parts of a table.
pub fn discard_parts<W: Site>(site: &mut W, table: u32, parts: &[PartRow]) -> Result<(), Failed>
    ensures during { W.tells → During (W.outside site.old) (W.outside site.new) (IsLeftBut table parts.now (W.outside site.old).files (W.outside site.old).said) }
    ensures keeps { ChangesParts W.tells (IsErr result) table parts.now (W.outside site.old) (W.outside site.new) }
{
    for row in parts {
        site.discard(FileId::part(table, row.part))?;
    }
    Ok(())
}
