// The names of files.
ghost use Rattle.std.specs.Prelude.{◌≡◌};
ghost use Rattle.chv_site.specs.FileIds.{catalog_log, table_log, part_of};

/// The first number of a part. Smaller file numbers belong to the table's log.
pub const FIRST_PART: u64 = 8;

/// A file of the store: which table it belongs to, and its number there.
#[derive(Clone, Copy, Debug, PartialEq, Eq, PartialOrd, Ord)]
pub struct FileId {
    /// The table's number, counted from 1; 0 for the catalog.
    pub table: u32,
    /// 0 for the log; a part's number from [`FIRST_PART`] on.
    pub part: u64,
}

impl FileId {
    /// The log of the catalog.
    pub fn catalog_log() -> FileId
        ensures { result ≡ catalog_log }
    {
        FileId { table: 0, part: 0 }
    }

    /// The log of a table.
    pub fn table_log(table: u32) -> FileId
        ensures { result ≡ table_log table }
    {
        FileId { table, part: 0 }
    }

    /// A part of a table.
    pub fn part(table: u32, part: u64) -> FileId
        ensures { result ≡ part_of table part }
    {
        FileId { table, part }
    }
}
