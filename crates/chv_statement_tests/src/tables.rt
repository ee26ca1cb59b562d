// Tables that come one after the other, and their names.
use crate::making::make;
use chv_catalog::Schema;
use std::alloc::Global;
use std::test::Fail;

// The tables `hits` and `hits_by_day`. Room for another name is given up in between.
fn two_tables(alloc: Global) -> Schema {
    let mut schema = Schema::new(alloc);
    make(
        alloc,
        &mut schema,
        b"CREATE TABLE hits (n UInt64) ENGINE = MergeTree ORDER BY n",
    );
    let _ = schema.reserve_one(alloc, b"given_up");
    make(
        alloc,
        &mut schema,
        b"CREATE TABLE hits_by_day (n UInt8) ENGINE = MergeTree ORDER BY n",
    );
    schema
}

// Whether a name has this number, 0 being none.
fn has_number(schema: &Schema, name: &[u8], number: u32) -> bool {
    schema.table(name).unwrap_or(0) == number && schema.taken(name) == (number > 0)
}

// Whether the two tables have their numbers, and other names none.
fn are_numbered(schema: &Schema) -> bool {
    let cases: [(&[u8], u32); 7] = [
        (b"hits", 1),
        (b"hits_by_day", 2),
        (b"hits_by_da", 0),
        (b"Hits", 0),
        (b"day", 0),
        (b"given_up", 0),
        (b"", 0),
    ];
    cases.iter().all(|case| has_number(schema, case.0, case.1))
}

#[test]
fn tables_are_numbered_as_they_come(rt: HostRuntime) {
    assert!(rt; are_numbered(&two_tables(rt.alloc())));
}
