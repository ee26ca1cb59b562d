// Statements that make a table or a view.
ghost use Rattle.chv_parse.specs.Reading.{Reads};
ghost use Rattle.chv_parse.specs.StatementReading.{read_state_arg, read_aggregate, read_kind, read_column, read_table_columns, read_equals_mark, read_engine, read_engine_parentheses, read_empty_key, read_single_key, read_key, read_window, read_create_table, read_create_view};

use crate::cursor::Cursor;
use crate::listed::{self, Member};
use crate::{ParseFault, select};
use chv_ast::{
    ColumnDef, ColumnDefs, CreateTable, CreateView, Digits, EngineWord, KindWord, Name, Names,
};
use sqlite_items::Items;
use std::alloc::Global;

// Reads the second argument of an aggregate's state, if it is written.
#[tactic(auto, unfolding(crate::specs::StatementReading::read_state_arg))]
fn state_arg(cursor: &mut Cursor, alloc: Global) -> Result<Option<Name>, ParseFault>
    ensures { Reads read_state_arg cursor.old result cursor.new }
{
    if cursor.next_is_sign(b",") {
        cursor.sign(b",")?;
        Ok(Some(cursor.name(alloc)?))
    } else {
        Ok(None)
    }
}

// Reads an aggregate's state.
#[tactic(auto, unfolding(crate::specs::StatementReading::read_aggregate))]
fn aggregate(cursor: &mut Cursor, alloc: Global) -> Result<KindWord, ParseFault>
    ensures { Reads read_aggregate cursor.old result cursor.new }
{
    cursor.word(b"AggregateFunction")?;
    cursor.sign(b"(")?;
    let function = cursor.name(alloc)?;
    let arg = state_arg(cursor, alloc)?;
    cursor.sign(b")")?;
    Ok(KindWord::Agg { function, arg })
}

// Reads the name of a kind, or an aggregate's state.
#[tactic(auto, unfolding(crate::specs::StatementReading::read_kind))]
fn kind(cursor: &mut Cursor, alloc: Global) -> Result<KindWord, ParseFault>
    ensures { Reads read_kind cursor.old result cursor.new }
{
    if cursor.next_is_word(b"AggregateFunction") && cursor.second_is_sign(b"(") {
        aggregate(cursor, alloc)
    } else {
        Ok(KindWord::Plain(cursor.name(alloc)?))
    }
}

// Reads a column's name and kind.
#[tactic(auto, unfolding(crate::specs::StatementReading::read_column))]
fn column(cursor: &mut Cursor, alloc: Global) -> Result<ColumnDef, ParseFault>
    ensures { Reads read_column cursor.old result cursor.new }
{
    let name = cursor.name(alloc)?;
    let kind = kind(cursor, alloc)?;
    Ok(ColumnDef { name, kind })
}

impl Member for ColumnDef {
    ghost use Rattle.chv_parse.specs.StatementReading.{read_column};

    ghost reader = { read_column };

    fn read(cursor: &mut Cursor, alloc: Global) -> Result<ColumnDef, ParseFault> {
        column(cursor, alloc)
    }
}

// Reads the columns of a table, in parentheses.
#[tactic(auto, unfolding(crate::specs::StatementReading::read_table_columns))]
fn columns(cursor: &mut Cursor, alloc: Global) -> Result<ColumnDefs, ParseFault>
    ensures { Reads read_table_columns cursor.old result cursor.new }
{
    cursor.sign(b"(")?;
    let columns = listed::listed::<ColumnDef>(cursor, alloc)?;
    cursor.sign(b")")?;
    Ok(columns)
}

// Reads an equals sign, if it is written.
#[tactic(auto, unfolding(crate::specs::StatementReading::read_equals_mark))]
fn equals_mark(cursor: &mut Cursor) -> Result<Option<()>, ParseFault>
    ensures { Reads read_equals_mark cursor.old result cursor.new }
{
    if cursor.next_is_sign(b"=") {
        cursor.sign(b"=")?;
        Ok(Some(()))
    } else {
        Ok(None)
    }
}

// Reads the word of an engine.
#[tactic(auto, unfolding(crate::specs::StatementReading::read_engine))]
fn engine(cursor: &mut Cursor) -> Result<EngineWord, ParseFault>
    ensures { Reads read_engine cursor.old result cursor.new }
{
    if cursor.next_is_word(b"MergeTree") {
        cursor.word(b"MergeTree")?;
        Ok(EngineWord::MergeTree)
    } else {
        cursor.word(b"AggregatingMergeTree")?;
        Ok(EngineWord::AggregatingMergeTree)
    }
}

// Reads the parentheses behind an engine, if they are written.
#[tactic(auto, unfolding(crate::specs::StatementReading::read_engine_parentheses))]
fn engine_parentheses(cursor: &mut Cursor) -> Result<Option<()>, ParseFault>
    ensures { Reads read_engine_parentheses cursor.old result cursor.new }
{
    if cursor.next_is_sign(b"(") {
        cursor.sign(b"(")?;
        cursor.sign(b")")?;
        Ok(Some(()))
    } else {
        Ok(None)
    }
}

// Reads the key of no names.
#[tactic(auto, unfolding(crate::specs::StatementReading::read_empty_key))]
fn empty_key(cursor: &mut Cursor, alloc: Global) -> Result<Names, ParseFault>
    ensures { Reads read_empty_key cursor.old result cursor.new }
{
    cursor.word(b"tuple")?;
    cursor.sign(b"(")?;
    cursor.sign(b")")?;
    Ok(Items::new(alloc))
}

// Reads the key of one name.
#[tactic(auto, unfolding(crate::specs::StatementReading::read_single_key))]
fn single_key(cursor: &mut Cursor, alloc: Global) -> Result<Names, ParseFault>
    ensures { Reads read_single_key cursor.old result cursor.new }
{
    let mut key = Items::new(alloc);
    key.push(cursor.name(alloc)?)?;
    Ok(key)
}

// Reads the names of a sorting key.
#[tactic(auto, unfolding(crate::specs::StatementReading::read_key))]
fn key(cursor: &mut Cursor, alloc: Global) -> Result<Names, ParseFault>
    ensures { Reads read_key cursor.old result cursor.new }
{
    if cursor.next_is_sign(b"(") {
        listed::names(cursor, alloc)
    } else if cursor.next_is_word(b"tuple") && cursor.second_is_sign(b"(") {
        empty_key(cursor, alloc)
    } else {
        single_key(cursor, alloc)
    }
}

// Reads the window of a table, if it is written.
#[tactic(auto, unfolding(crate::specs::StatementReading::read_window))]
fn window(cursor: &mut Cursor, alloc: Global) -> Result<Option<Digits>, ParseFault>
    ensures { Reads read_window cursor.old result cursor.new }
{
    if cursor.next_is_keyword(b"SETTINGS") {
        cursor.keyword(b"SETTINGS")?;
        cursor.word(b"non_replicated_deduplication_window")?;
        cursor.sign(b"=")?;
        Ok(Some(cursor.whole(alloc)?))
    } else {
        Ok(None)
    }
}

/// Reads a statement that makes a table.
#[tactic(auto, unfolding(crate::specs::StatementReading::read_create_table))]
pub fn create_table(cursor: &mut Cursor, alloc: Global) -> Result<CreateTable, ParseFault>
    ensures { Reads read_create_table cursor.old result cursor.new }
{
    cursor.keyword(b"CREATE")?;
    cursor.keyword(b"TABLE")?;
    let name = cursor.name(alloc)?;
    let columns = columns(cursor, alloc)?;
    cursor.keyword(b"ENGINE")?;
    equals_mark(cursor)?;
    let engine = engine(cursor)?;
    engine_parentheses(cursor)?;
    cursor.keyword(b"ORDER")?;
    cursor.keyword(b"BY")?;
    let key = key(cursor, alloc)?;
    let window = window(cursor, alloc)?;
    Ok(CreateTable {
        name,
        columns,
        engine,
        key,
        window,
    })
}

/// Reads a statement that makes a view.
#[tactic(auto, unfolding(crate::specs::StatementReading::read_create_view))]
pub fn create_view(cursor: &mut Cursor, alloc: Global) -> Result<CreateView, ParseFault>
    ensures { Reads read_create_view cursor.old result cursor.new }
{
    cursor.keyword(b"CREATE")?;
    cursor.keyword(b"MATERIALIZED")?;
    cursor.keyword(b"VIEW")?;
    let name = cursor.name(alloc)?;
    cursor.keyword(b"TO")?;
    let target = cursor.name(alloc)?;
    cursor.keyword(b"AS")?;
    let select = select::plain_select(cursor, alloc)?;
    Ok(CreateView {
        name,
        target,
        select,
    })
}
