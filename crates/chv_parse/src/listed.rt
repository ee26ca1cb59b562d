// Lists with commas.
ghost use Rattle.std.specs.Prelude.{◌≡◌};
ghost use Rattle.chv_parse.specs.Reading.{Reader, Reads};
ghost use Rattle.chv_parse.specs.StatementReading.{read_behind_some, read_listed, read_names, read_list_by};

use crate::ParseFault;
use crate::cursor::Cursor;
use chv_ast::{Expr, Name, Names};
use sqlite_items::Items;
use std::alloc::Global;

/// What stands in lists with commas.
pub trait Member: Drop {
    ghost reader: { Reader Self };

    /// Reads one value.
    fn read(cursor: &mut Cursor, alloc: Global) -> Result<Self, ParseFault>
        ensures { Reads reader cursor.old result cursor.new };
}

impl Member for Name {
    ghost use Rattle.chv_parse.specs.StatementReading.{read_name};

    ghost reader = { read_name };

    fn read(cursor: &mut Cursor, alloc: Global) -> Result<Name, ParseFault> {
        cursor.name(alloc)
    }
}

impl Member for Expr {
    ghost use Rattle.chv_parse.specs.ExprReading.{read_expr};

    ghost reader = { read_expr };

    fn read(cursor: &mut Cursor, alloc: Global) -> Result<Expr, ParseFault> {
        cursor.expr(alloc)
    }
}

/// Reads values, with a comma between two of them.
#[tactic(auto, unfolding(crate::specs::StatementReading::read_listed))]
pub fn listed<T: Member>(cursor: &mut Cursor, alloc: Global) -> Result<Items<T>, ParseFault>
    ensures { Reads (read_listed T.reader) cursor.old result cursor.new }
{
    let count = cursor.count();
    let mut values = Items::new(alloc);
    let value = T::read(cursor, alloc)?;
    values.push(value)?;
    behind(cursor, alloc, values, count)
}

// The values behind some, each behind a comma.
fn behind<T: Member>(
    cursor: &mut Cursor,
    alloc: Global,
    front: Items<T>,
    count: usize,
) -> Result<Items<T>, ParseFault>
    ensures { Reads (read_behind_some front T.reader count) cursor.old result cursor.new }
{
    let mut values = front;
    for _ in 0..count {
        if !cursor.next_is_sign(b",") {
            return Ok(values);
        }
        cursor.pass();
        let value = T::read(cursor, alloc)?;
        values.push(value)?;
    }
    Err(ParseFault::Syntax)
}

/// Reads names in parentheses.
#[tactic(auto, unfolding(crate::specs::StatementReading::read_names))]
pub fn names(cursor: &mut Cursor, alloc: Global) -> Result<Names, ParseFault>
    ensures { Reads read_names cursor.old result cursor.new }
{
    cursor.sign(b"(")?;
    let names = listed::<Name>(cursor, alloc)?;
    cursor.sign(b")")?;
    Ok(names)
}

/// Reads values behind GROUP BY or ORDER BY, of which `first` is the first word; none where it does not come next.
#[tactic(auto, unfolding(crate::specs::StatementReading::read_list_by))]
pub fn list_by<T: Member>(
    cursor: &mut Cursor,
    alloc: Global,
    first: &[u8],
) -> Result<Items<T>, ParseFault>
    ensures { Reads (read_list_by first.now T.reader) cursor.old result cursor.new }
{
    if cursor.next_is_keyword(first) {
        cursor.keyword(first)?;
        cursor.keyword(b"BY")?;
        listed::<T>(cursor, alloc)
    } else {
        Ok(Items::new(alloc))
    }
}
