// Statements, by their first words.
ghost use Rattle.std.specs.Prelude.{◌≡◌, IfOk, IfErr, List};
ghost use Rattle.chv_ast.specs.Lexemes.{Lexeme};
ghost use Rattle.chv_ast.specs.GrammarStatements.{IsStatement};
ghost use Rattle.chv_lex.specs.Lexemes.{lexemes};
ghost use Rattle.chv_parse.specs.Reading.{Reads};
ghost use Rattle.chv_parse.specs.StatementReading.{read_show_parts, read_optimize, read_flush_queue, read_create, read_upkeep, read_statement, ReadsAll, Gives};
ghost use Rattle.chv_parse.specs.declared.fault.ParseFault.TheVariants as fault;

use crate::ParseFault;
use crate::create::{create_table, create_view};
use crate::cursor::Cursor;
use crate::insert::insert;
use crate::select::select;
use chv_ast::{Optimize, ShowParts, Statement};
use chv_lex::Token;
use sqlite_items::Items;
use std::alloc::Global;

// Reads a look at the parts of a table.
#[tactic(auto, unfolding(crate::specs::StatementReading::read_show_parts))]
fn show_parts(cursor: &mut Cursor, alloc: Global) -> Result<ShowParts, ParseFault>
    ensures { Reads read_show_parts cursor.old result cursor.new }
{
    cursor.keyword(b"SHOW")?;
    cursor.keyword(b"PARTS")?;
    let table = cursor.name(alloc)?;
    Ok(ShowParts { table })
}

// Reads a wish for a merge.
#[tactic(auto, unfolding(crate::specs::StatementReading::read_optimize))]
fn optimize(cursor: &mut Cursor, alloc: Global) -> Result<Optimize, ParseFault>
    ensures { Reads read_optimize cursor.old result cursor.new }
{
    cursor.keyword(b"OPTIMIZE")?;
    cursor.keyword(b"TABLE")?;
    let table = cursor.name(alloc)?;
    cursor.keyword(b"FINAL")?;
    Ok(Optimize { table })
}

// Reads a wish that held inserts be written.
#[tactic(auto, unfolding(crate::specs::StatementReading::read_flush_queue))]
fn flush_queue(cursor: &mut Cursor) -> Result<(), ParseFault>
    ensures { Reads read_flush_queue cursor.old result cursor.new }
{
    cursor.keyword(b"SYSTEM")?;
    cursor.keyword(b"FLUSH")?;
    cursor.keyword(b"ASYNC")?;
    cursor.keyword(b"INSERT")?;
    cursor.keyword(b"QUEUE")?;
    Ok(())
}

// Reads a statement that makes a table or a view.
#[tactic(auto, unfolding(crate::specs::StatementReading::read_create))]
fn create(cursor: &mut Cursor, alloc: Global) -> Result<Statement, ParseFault>
    ensures { Reads read_create cursor.old result cursor.new }
{
    if cursor.second_is_keyword(b"TABLE") {
        Ok(Statement::CreateTable(create_table(cursor, alloc)?))
    } else {
        Ok(Statement::CreateView(create_view(cursor, alloc)?))
    }
}

// Reads a statement that begins with none of CREATE, INSERT and SELECT.
#[tactic(auto, unfolding(crate::specs::StatementReading::read_upkeep))]
fn upkeep(cursor: &mut Cursor, alloc: Global) -> Result<Statement, ParseFault>
    ensures { Reads read_upkeep cursor.old result cursor.new }
{
    if cursor.next_is_keyword(b"SHOW") {
        Ok(Statement::ShowParts(show_parts(cursor, alloc)?))
    } else if cursor.next_is_keyword(b"OPTIMIZE") {
        Ok(Statement::Optimize(optimize(cursor, alloc)?))
    } else {
        flush_queue(cursor)?;
        Ok(Statement::FlushQueue)
    }
}

// Reads a statement, by its first word.
#[tactic(auto, unfolding(crate::specs::StatementReading::read_statement))]
fn any_statement(cursor: &mut Cursor, alloc: Global) -> Result<Statement, ParseFault>
    ensures { Reads read_statement cursor.old result cursor.new }
{
    if cursor.next_is_keyword(b"CREATE") {
        create(cursor, alloc)
    } else if cursor.next_is_keyword(b"INSERT") {
        Ok(Statement::Insert(insert(cursor, alloc)?))
    } else if cursor.next_is_keyword(b"SELECT") {
        Ok(Statement::Query(select(cursor, alloc)?))
    } else {
        upkeep(cursor, alloc)
    }
}

// Reads all tokens of a piece as one statement.
fn whole_statement(alloc: Global, piece: &[u8], tokens: &[Token]) -> Result<Statement, ParseFault>
    ensures { ReadsAll read_statement (lexemes piece.now tokens.now) result }
{
    let mut cursor = Cursor::new(piece, tokens);
    let statement = any_statement(&mut cursor, alloc)?;
    if cursor.is_at_end() {
        Ok(statement)
    } else {
        Err(ParseFault::Syntax)
    }
}

/// Reads the one statement that the tokens of a piece write.
pub fn statement(
    alloc: Global,
    piece: &[u8],
    tokens: &Items<Token>,
) -> Result<Statement, ParseFault>
    // What is read is what the tokens write.
    ensures found { IfOk result (λ read. IsStatement read (lexemes piece.now tokens.now)) }
    // Where it is refused, the tokens write no statement.
    ensures none { IfErr result (λ why. why ≡ fault.Syntax → (s : Statement) → IsStatement s (lexemes piece.now tokens.now) → ⊥) }
    // A statement that the tokens write is read, unless memory runs out.
    ensures only { (s : Statement) → IsStatement s (lexemes piece.now tokens.now) → Gives result s }
{
    whole_statement(alloc, piece, tokens.as_slice())
}
