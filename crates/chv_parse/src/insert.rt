// Inserts.
ghost use Rattle.chv_parse.specs.Reading.{Reads};
ghost use Rattle.chv_parse.specs.StatementReading.{read_row_literal, read_row, read_table_mark, read_columns, read_insert};

use crate::ParseFault;
use crate::cursor::Cursor;
use crate::listed::{self, Member};
use crate::settings::settings;
use chv_ast::{Insert, Literal, LiteralRow, Names};
use std::alloc::Global;

// Reads a literal of a row.
#[tactic(auto, unfolding(crate::specs::StatementReading::read_row_literal))]
fn row_literal(cursor: &mut Cursor, alloc: Global) -> Result<Literal, ParseFault>
    ensures { Reads read_row_literal cursor.old result cursor.new }
{
    if cursor.next_is_sign(b"-") {
        cursor.sign(b"-")?;
        Ok(Literal::Whole {
            minus: true,
            digits: cursor.whole(alloc)?,
        })
    } else {
        cursor.literal(alloc)
    }
}

impl Member for Literal {
    ghost use Rattle.chv_parse.specs.StatementReading.{read_row_literal};

    ghost reader = { read_row_literal };

    fn read(cursor: &mut Cursor, alloc: Global) -> Result<Literal, ParseFault> {
        row_literal(cursor, alloc)
    }
}

// Reads the literals of a row, in parentheses.
#[tactic(auto, unfolding(crate::specs::StatementReading::read_row))]
fn row(cursor: &mut Cursor, alloc: Global) -> Result<LiteralRow, ParseFault>
    ensures { Reads read_row cursor.old result cursor.new }
{
    cursor.sign(b"(")?;
    let row = listed::listed::<Literal>(cursor, alloc)?;
    cursor.sign(b")")?;
    Ok(row)
}

impl Member for LiteralRow {
    ghost use Rattle.chv_parse.specs.StatementReading.{read_row};

    ghost reader = { read_row };

    fn read(cursor: &mut Cursor, alloc: Global) -> Result<LiteralRow, ParseFault> {
        row(cursor, alloc)
    }
}

// Reads TABLE in front of a name, if it is written.
#[tactic(auto, unfolding(crate::specs::StatementReading::read_table_mark))]
fn table_mark(cursor: &mut Cursor) -> Result<Option<()>, ParseFault>
    ensures { Reads read_table_mark cursor.old result cursor.new }
{
    if cursor.next_is_keyword(b"TABLE") && cursor.second_is_name() {
        cursor.keyword(b"TABLE")?;
        Ok(Some(()))
    } else {
        Ok(None)
    }
}

// Reads the columns of an insert, if they are written.
#[tactic(auto, unfolding(crate::specs::StatementReading::read_columns))]
fn columns(cursor: &mut Cursor, alloc: Global) -> Result<Option<Names>, ParseFault>
    ensures { Reads read_columns cursor.old result cursor.new }
{
    if cursor.next_is_sign(b"(") {
        Ok(Some(listed::names(cursor, alloc)?))
    } else {
        Ok(None)
    }
}

/// Reads an insert.
#[tactic(auto, unfolding(crate::specs::StatementReading::read_insert))]
pub fn insert(cursor: &mut Cursor, alloc: Global) -> Result<Insert, ParseFault>
    ensures { Reads read_insert cursor.old result cursor.new }
{
    cursor.keyword(b"INSERT")?;
    cursor.keyword(b"INTO")?;
    table_mark(cursor)?;
    let table = cursor.name(alloc)?;
    let columns = columns(cursor, alloc)?;
    let set = settings(cursor, alloc)?;
    cursor.keyword(b"VALUES")?;
    let rows = listed::listed::<LiteralRow>(cursor, alloc)?;
    Ok(Insert {
        table,
        columns,
        settings: set,
        rows,
    })
}
