// Queries.
ghost use Rattle.std.specs.Prelude.{◌≡◌};
ghost use Rattle.chv_parse.specs.Reading.{Reads};
ghost use Rattle.chv_parse.specs.StatementReading.{read_alias, read_item_of_expr, read_item, read_is_final, read_filter, read_direction, read_order, read_limit, read_select, read_plain_select, is_plain};

use crate::ParseFault;
use crate::cursor::Cursor;
use crate::listed::{self, Member};
use chv_ast::{Digits, Expr, Item, Name, Order, Select};
use std::alloc::Global;

// Reads the alias of an item, if it is written.
#[tactic(auto, unfolding(crate::specs::StatementReading::read_alias))]
fn alias(cursor: &mut Cursor, alloc: Global) -> Result<Option<Name>, ParseFault>
    ensures { Reads read_alias cursor.old result cursor.new }
{
    if cursor.next_is_keyword(b"AS") {
        cursor.keyword(b"AS")?;
        Ok(Some(cursor.name(alloc)?))
    } else {
        Ok(None)
    }
}

// Reads an expression, and its alias if it is written.
#[tactic(auto, unfolding(crate::specs::StatementReading::read_item_of_expr))]
fn item_of_expr(cursor: &mut Cursor, alloc: Global) -> Result<Item, ParseFault>
    ensures { Reads read_item_of_expr cursor.old result cursor.new }
{
    let expr = cursor.expr(alloc)?;
    let alias = alias(cursor, alloc)?;
    Ok(Item::One { expr, alias })
}

// Reads an item of a select.
#[tactic(auto, unfolding(crate::specs::StatementReading::read_item))]
fn item(cursor: &mut Cursor, alloc: Global) -> Result<Item, ParseFault>
    ensures { Reads read_item cursor.old result cursor.new }
{
    if cursor.next_is_sign(b"*") {
        cursor.sign(b"*")?;
        Ok(Item::All)
    } else {
        item_of_expr(cursor, alloc)
    }
}

impl Member for Item {
    ghost use Rattle.chv_parse.specs.StatementReading.{read_item};

    ghost reader = { read_item };

    fn read(cursor: &mut Cursor, alloc: Global) -> Result<Item, ParseFault> {
        item(cursor, alloc)
    }
}

// Reads FINAL, if it is written.
#[tactic(auto, unfolding(crate::specs::StatementReading::read_is_final))]
fn is_final(cursor: &mut Cursor) -> Result<bool, ParseFault>
    ensures { Reads read_is_final cursor.old result cursor.new }
{
    if cursor.next_is_keyword(b"FINAL") {
        cursor.keyword(b"FINAL")?;
        Ok(true)
    } else {
        Ok(false)
    }
}

// Reads the condition of a select, if it is written.
#[tactic(auto, unfolding(crate::specs::StatementReading::read_filter))]
fn filter(cursor: &mut Cursor, alloc: Global) -> Result<Option<Expr>, ParseFault>
    ensures { Reads read_filter cursor.old result cursor.new }
{
    if cursor.next_is_keyword(b"WHERE") {
        cursor.keyword(b"WHERE")?;
        Ok(Some(cursor.expr(alloc)?))
    } else {
        Ok(None)
    }
}

// Reads ASC or DESC, if it is written, and whether it is DESC.
#[tactic(auto, unfolding(crate::specs::StatementReading::read_direction))]
fn direction(cursor: &mut Cursor) -> Result<bool, ParseFault>
    ensures { Reads read_direction cursor.old result cursor.new }
{
    if cursor.next_is_keyword(b"DESC") {
        cursor.keyword(b"DESC")?;
        Ok(true)
    } else if cursor.next_is_keyword(b"ASC") {
        cursor.keyword(b"ASC")?;
        Ok(false)
    } else {
        Ok(false)
    }
}

// Reads a name that an answer is sorted by.
#[tactic(auto, unfolding(crate::specs::StatementReading::read_order))]
fn order(cursor: &mut Cursor, alloc: Global) -> Result<Order, ParseFault>
    ensures { Reads read_order cursor.old result cursor.new }
{
    let name = cursor.name(alloc)?;
    let down = direction(cursor)?;
    Ok(Order { name, down })
}

impl Member for Order {
    ghost use Rattle.chv_parse.specs.StatementReading.{read_order};

    ghost reader = { read_order };

    fn read(cursor: &mut Cursor, alloc: Global) -> Result<Order, ParseFault> {
        order(cursor, alloc)
    }
}

// Reads the limit of a select, if it is written.
#[tactic(auto, unfolding(crate::specs::StatementReading::read_limit))]
fn limit(cursor: &mut Cursor, alloc: Global) -> Result<Option<Digits>, ParseFault>
    ensures { Reads read_limit cursor.old result cursor.new }
{
    if cursor.next_is_keyword(b"LIMIT") {
        cursor.keyword(b"LIMIT")?;
        Ok(Some(cursor.whole(alloc)?))
    } else {
        Ok(None)
    }
}

/// Reads a query.
#[tactic(auto, unfolding(crate::specs::StatementReading::read_select))]
pub fn select(cursor: &mut Cursor, alloc: Global) -> Result<Select, ParseFault>
    ensures { Reads read_select cursor.old result cursor.new }
{
    cursor.keyword(b"SELECT")?;
    let items = listed::listed::<Item>(cursor, alloc)?;
    cursor.keyword(b"FROM")?;
    let table = cursor.name(alloc)?;
    let merged = is_final(cursor)?;
    let filter = filter(cursor, alloc)?;
    let keys = listed::list_by::<Expr>(cursor, alloc, b"GROUP")?;
    let order = listed::list_by::<Order>(cursor, alloc, b"ORDER")?;
    let limit = limit(cursor, alloc)?;
    Ok(Select {
        items,
        table,
        merged,
        filter,
        keys,
        order,
        limit,
    })
}

/// Reads a query that has no FINAL, ORDER BY or LIMIT.
#[tactic(auto, unfolding(crate::specs::StatementReading::read_plain_select))]
pub fn plain_select(cursor: &mut Cursor, alloc: Global) -> Result<Select, ParseFault>
    ensures { Reads read_plain_select cursor.old result cursor.new }
{
    let query = select(cursor, alloc)?;
    if is_plain(&query) {
        Ok(query)
    } else {
        Err(ParseFault::Syntax)
    }
}

// Whether a query has no FINAL, ORDER BY or LIMIT.
fn is_plain(query: &Select) -> bool
    ensures { result ≡ is_plain query.now }
{
    !query.merged && query.order.len() == 0 && query.limit.is_none()
}
