// Values that several tests make.
ghost use Rattle.std.specs.Prelude.{◌≡◌, ◌∷◌, [], IfOk};
ghost use Rattle.chv_types.specs.declared.value.Value.TheVariants.{Text, Whole};

use chv_text::rows_text;
use chv_types::{Block, Bytes, Kind, Kinds, Row, Value};
use std::alloc::{AllocError, Global};

/// The list of these bytes.
pub fn bytes(alloc: Global, bytes: &[u8]) -> Result<Bytes, AllocError>
    ensures { IfOk result (λ made. made ≡ bytes.now) }
{
    Bytes::from_slice(alloc, bytes)
}

/// A text of these bytes.
pub fn text(alloc: Global, text: &[u8]) -> Result<Value, AllocError>
    ensures { IfOk result (λ value. value ≡ Text text.now) }
{
    Ok(Value::Text(bytes(alloc, text)?))
}

/// A row of one value.
pub fn row_of(alloc: Global, value: Value) -> Result<Row, AllocError>
    ensures { IfOk result (λ row. row ≡ value ∷ []) }
{
    let mut row = Row::new(alloc);
    row.push(value)?;
    Ok(row)
}

/// A row of two numbers.
pub fn pair(alloc: Global, first: i128, second: i128) -> Result<Row, AllocError>
    ensures { IfOk result (λ row. row ≡ Whole first ∷ Whole second ∷ []) }
{
    let mut row = row_of(alloc, Value::Whole(first))?;
    row.push(Value::Whole(second))?;
    Ok(row)
}

/// A block as text, of columns of these kinds.
pub fn shown(alloc: Global, kinds: &[Kind], block: &Block) -> Result<Bytes, AllocError> {
    rows_text(alloc, &Kinds::from_slice(alloc, kinds)?, block)
}

/// Rows of two numbers.
pub fn pairs(alloc: Global, numbers: &[(i128, i128)]) -> Result<Block, AllocError> {
    let mut rows = Block::new(alloc);
    for (first, second) in numbers {
        rows.push(pair(alloc, *first, *second)?)?;
    }
    Ok(rows)
}
