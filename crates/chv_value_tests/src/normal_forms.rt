// Rows in order by hand: numbers by one column and by the other, texts, and rows that are the same.
use crate::making::{pairs, row_of, shown, text};
use chv_merge::normal;
use chv_types::{Block, Bytes, Kind, Places, Scalar};
use std::alloc::{AllocError, Global};
use std::test::Fail;

// The normal form of rows under a key, as text.
fn sorted(alloc: Global, kinds: &[Kind], places: &[u32], rows: Block) -> Result<Bytes, AllocError> {
    let key = Places::from_slice(alloc, places)?;
    shown(alloc, kinds, &normal(&key, rows)?)
}

// Four rows of numbers in their normal form.
fn sorted_pairs(alloc: Global, places: &[u32]) -> Result<Bytes, AllocError> {
    sorted(
        alloc,
        &[Kind::Plain(Scalar::UInt64); 2],
        places,
        pairs(alloc, &[(2, 20), (1, 30), (1, 5), (1, 30)])?,
    )
}

#[test]
fn rows_go_by_the_key_and_then_by_all_values(rt: HostRuntime) -> Result<(), Fail> {
    let cases: [(&[u32], &[u8]); 3] = [
        (&[0], b"1\t5\n1\t30\n1\t30\n2\t20\n"),
        (&[1], b"1\t5\n2\t20\n1\t30\n1\t30\n"),
        (&[], b"1\t5\n1\t30\n1\t30\n2\t20\n"),
    ];
    for (places, wanted) in cases {
        assert!(rt; sorted_pairs(rt.alloc(), places)?.as_slice() == wanted);
    }
    Ok(())
}

// Rows of one text.
fn texts(alloc: Global, words: &[&[u8]]) -> Result<Block, AllocError> {
    let mut rows = Block::new(alloc);
    for word in words {
        rows.push(row_of(alloc, text(alloc, word)?)?)?;
    }
    Ok(rows)
}

#[test]
fn a_text_stands_before_the_texts_it_begins(rt: HostRuntime) -> Result<(), Fail> {
    let rows = texts(rt.alloc(), &[b"b", b"ab", b"", b"a"])?;
    let kinds = [Kind::Plain(Scalar::Text)];
    assert!(rt; sorted(rt.alloc(), &kinds, &[0], rows)?.as_slice() == b"\na\nab\nb\n".as_slice());
    Ok(())
}
