// Blocks.
ghost use Rattle.std.specs.Prelude.{◌≡◌, ◌++◌, ◌∷◌, [], length, OnOk, OnErr};

use crate::Row;
use std::alloc::{AllocError, Global};
use std::marker::Model;

/// Rows in order. What sorts them takes them out as a vector, and makes a block of it again.
#[derive(Debug, Drop)]
pub struct Block {
    rows: Vec<Row>,
}

impl Model for Block {
    ghost use Rattle.std.specs.Prelude.{List};
    ghost use Rattle.chv_types.specs.declared.value.Value.{Value as SomeValue};

    ghost Value = { List (List SomeValue) };

    ghost view = { λ block. block.rows.items };
}

impl Block {
    /// No rows. It takes no memory.
    pub fn new(alloc: Global) -> Block
        ensures { result ≡ [] }
    {
        Block {
            rows: Vec::new(alloc),
        }
    }

    /// The block of these rows. It takes no memory.
    pub fn from_vec(rows: Vec<Row>) -> Block
        ensures { result ≡ rows.items }
    {
        Block { rows }
    }

    /// The rows of the block. It takes no memory.
    pub fn into_vec(self) -> Vec<Row>
        ensures { result.items ≡ self }
    {
        let Block { rows } = self;
        rows
    }

    /// How many rows there are.
    pub fn len(&self) -> usize
        ensures { result ≡ length self.now }
    {
        self.rows.len()
    }

    /// The rows, borrowed.
    pub fn as_slice(&self) -> &[Row]
        ensures { result.now ≡ self.now }
    {
        self.rows.as_slice()
    }

    /// Puts a row behind the others. An `Err` leaves the block as it was.
    pub fn push(&mut self, row: Row) -> Result<(), AllocError>
        ensures ok { OnOk result (self.new ≡ self.old ++ row ∷ []) }
        ensures err { OnErr result (self.new ≡ self.old) }
    {
        self.rows.push(row)?;
        Ok(())
    }

    /// Moves the rows of another block behind the others. An `Err` leaves the block as it was.
    pub fn append(&mut self, more: Block) -> Result<(), AllocError>
        ensures ok { OnOk result (self.new ≡ self.old ++ more) }
        ensures err { OnErr result (self.new ≡ self.old) }
    {
        let Block { mut rows } = more;
        self.rows.append(&mut rows)
    }
}
