// How many bytes values have.
ghost use Rattle.std.specs.Prelude.{◌≡◌, ◌≤◌, length};
ghost use Rattle.std.specs.List.{All};
ghost use Rattle.chv_types.specs.Order.{bytes};
ghost use Rattle.chv_block.specs.Spellings.{IsOf, AreOf, IsSmall, value_spelling, row_spelling};

use chv_agg::plain_size;
use chv_types::{Kind, Row, Value};

/// How many canonical bytes a row has, of which no state has more than 1,048,576.
pub fn row_size(kinds: &[Kind], row: &Row) -> u64
    requires few { length kinds.now ≤ 64 }
    requires row { AreOf kinds.now row.now }
    requires small { All IsSmall row.now }
    ensures { result ≡ length (row_spelling kinds.now row.now) }
{
    let values = row.as_slice();
    let mut size = 0;
    for i in 0..values.len() {
        size += value_size(kinds[i], &values[i]);
    }
    size
}

// How many canonical bytes a value of a kind has: 4 and 1,048,576 at most.
fn value_size(kind: Kind, value: &Value) -> u64
    requires kind { IsOf kind value.now }
    requires small { IsSmall value.now }
    ensures size { result ≡ length (value_spelling kind value.now) }
    ensures most { result ≤ 1048580 }
{
    match kind {
        Kind::Plain(scalar) => plain_size(scalar, value),
        Kind::State(..) => state_size(value),
    }
}

// How many bytes the spelling of a state has.
fn state_size(value: &Value) -> u64
    requires small { IsSmall value.now }
    ensures size { result ≡ length (bytes value.now) }
    ensures most { result ≤ 1048580 }
{
    match value {
        Value::State(spelling) => spelling.len() as u64,
        Value::Text(text) => text.len() as u64,
        _ => 0,
    }
}
