// The blocks of inserts.
use crate::making::{row_of, shown};
use chv_block::{Sizes, Squasher};
use chv_types::{Block, Kind, Scalar, Value};
use std::alloc::{AllocError, Global};
use std::test::Fail;

// Puts the rows of a block behind `out`, a line each, and a bar behind them.
fn put_block(alloc: Global, out: &mut Vec<u8>, block: Option<Block>) -> Result<(), AllocError> {
    if let Some(block) = block {
        let kinds = [Kind::Plain(Scalar::UInt64)];
        out.extend_from_slice(shown(alloc, &kinds, &block)?.as_slice())?;
        out.extend_from_slice(b"|")?;
    }
    Ok(())
}

// The blocks of so many rows of one number of 8 bytes each, counted up from 0. A piece has to have rows.
fn blocks(alloc: Global, sizes: Sizes, rows: u64) -> Result<Vec<u8>, AllocError> {
    let mut out = Vec::new(alloc);
    if sizes.max_rows == 0 {
        return Ok(out);
    }
    let mut squasher = Squasher::new(alloc, sizes);
    for n in 0..rows {
        let row = row_of(alloc, Value::Whole(i128::from(n)))?;
        let block = squasher.feed(alloc, row, 8)?;
        put_block(alloc, &mut out, block)?;
    }
    put_block(alloc, &mut out, squasher.finish())?;
    Ok(out)
}

// Whether an insert of so many rows has these blocks.
fn are_blocks(alloc: Global, sizes: (u64, u64, u64), rows: u64, wanted: &[u8]) -> bool {
    let (max_rows, min_rows, min_bytes) = sizes;
    let sizes = Sizes {
        max_rows,
        min_rows,
        min_bytes,
    };
    match blocks(alloc, sizes, rows) {
        Ok(out) => out.as_slice() == wanted,
        Err(_) => false,
    }
}

// The greatest and the two least sizes, the number of rows of 8 bytes, and the blocks.
#[test]
fn rows_become_blocks(rt: HostRuntime) {
    let cases: [((u64, u64, u64), u64, &[u8]); 8] = [
        ((2, 3, 0), 7, b"0\n1\n2\n3\n|4\n5\n6\n|"),
        ((65536, 65536, 16777216), 3, b"0\n1\n2\n|"),
        ((1, 0, 0), 2, b"0\n|1\n|"),
        ((3, 0, 0), 4, b"0\n1\n2\n|3\n|"),
        ((1, 0, 16), 5, b"0\n1\n|2\n3\n|4\n|"),
        ((1, 5, 16), 4, b"0\n1\n|2\n3\n|"),
        ((1, 3, 1000), 4, b"0\n1\n2\n|3\n|"),
        ((1, 1, 1), 0, b""),
    ];
    for (sizes, rows, wanted) in cases {
        assert!(rt; are_blocks(rt.alloc(), sizes, rows, wanted));
    }
}
