// Parts of a table that become one: the eight that are due, and then all.
ghost use Rattle.std.specs.Prelude.{◌≡◌, true};
ghost use Rattle.chv_site.specs.MemSite.{files_of};
ghost use Rattle.chv_table.specs.Tables.{IsPlaced, IsWithin};

use crate::making::{are_delivered, begun};
use crate::table::has_rows;
use chv_commit::PartRow;
use chv_site::{Fails, FileId, MemSite};
use chv_table::Table;
use std::alloc::Global;

// Makes the merge that is due.
fn is_stepped(alloc: Global, site: &mut MemSite, table: &mut Table) -> bool
    requires within { IsWithin table.old }
    requires placed { IsPlaced table.old (files_of site.old) }
    ensures within { result ≡ true → IsWithin table.new }
    ensures placed { result ≡ true → IsPlaced table.new (files_of site.new) }
{
    match table.merge_step(alloc, site) {
        Ok(()) => true,
        Err(_) => false,
    }
}

// Makes all parts one.
fn is_joined(alloc: Global, site: &mut MemSite, table: &mut Table) -> bool
    requires within { IsWithin table.old }
    requires placed { IsPlaced table.old (files_of site.old) }
    ensures within { result ≡ true → IsWithin table.new }
{
    match table.merge_all(alloc, site) {
        Ok(()) => true,
        Err(_) => false,
    }
}

// Whether a part has these entries, this level, this number and so many rows.
fn is_part(parts: &[PartRow], place: usize, told: [u64; 5]) -> bool {
    match parts.get(place) {
        Some(row) => [row.lo, row.hi, row.level, row.part, row.rows] == told,
        None => false,
    }
}

// Of ten parts the first eight are due, and their files are discarded; then all three are one. No row changes.
fn becomes_one(alloc: Global) -> bool {
    let mut site = MemSite::new(alloc, Fails::new(alloc));
    match begun(alloc, &mut site, 0) {
        Some(mut table) => {
            are_delivered(&mut site, &mut table, [3, 1, 2, 1, 1], b"wwwww")
                && !table.merge_due()
                && are_delivered(&mut site, &mut table, [5, 4, 6, 7, 9], b"wwwww")
                && table.merge_due()
                && is_stepped(alloc, &mut site, &mut table)
                && !table.merge_due()
                && table.parts().len() == 3
                && is_part(table.parts(), 0, [1, 8, 1, 18, 8])
                && site.file(FileId::part(1, 8)).is_empty()
                && is_joined(alloc, &mut site, &mut table)
                && table.parts().len() == 1
                && is_part(table.parts(), 0, [1, 10, 2, 19, 10])
                && has_rows(alloc, &mut site, &table, b"1\n1\n1\n2\n3\n4\n5\n6\n7\n9\n")
        }
        None => false,
    }
}

#[test]
fn parts_become_one(rt: HostRuntime) {
    assert!(rt; becomes_one(rt.alloc()));
}
