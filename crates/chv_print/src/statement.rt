// The canonical text of statements.
ghost use Rattle.std.specs.Prelude.{◌≡◌, ◌++◌, OnOk, IfOk};
ghost use Rattle.chv_ast.specs.Formed.{WellFormed};
ghost use Rattle.chv_ast.specs.GrammarStatements.{IsStatement};
ghost use Rattle.chv_lex.specs.Writes.{Writes};
ghost use Rattle.chv_print.specs.StatementTexts as spec;

use crate::create::{put_table, put_view};
use crate::insert::put_insert;
use crate::name::put_name;
use crate::select::put_select;
use chv_ast::Statement;
use std::alloc::{AllocError, Global};

/// The canonical text of a statement.
pub fn statement_text(alloc: Global, s: &Statement) -> Result<Vec<u8>, AllocError>
    ensures text { IfOk result (λ text. text.items ≡ spec.statement_text s.now) }
    ensures read_back { IfOk result (λ text. WellFormed s.now → Writes IsStatement s.now text.items) }
{
    let mut text = Vec::new(alloc);
    put_statement(&mut text, s)?;
    Ok(text)
}

/// Puts a statement behind `out`.
#[tactic(auto, unfolding(crate::specs::StatementTexts::statement_text))]
fn put_statement(out: &mut Vec<u8>, s: &Statement) -> Result<(), AllocError>
    ensures ok { OnOk result (out.new.items ≡ out.old.items ++ spec.statement_text s.now) }
{
    match s {
        Statement::CreateTable(made) => put_table(out, made),
        Statement::CreateView(made) => put_view(out, made),
        Statement::Insert(brought) => put_insert(out, brought),
        Statement::Query(asked) => put_select(out, asked),
        Statement::ShowParts(asked) => {
            out.extend_from_slice(b"SHOW PARTS ")?;
            put_name(out, asked.table.as_slice())
        }
        Statement::Optimize(asked) => {
            out.extend_from_slice(b"OPTIMIZE TABLE ")?;
            put_name(out, asked.table.as_slice())?;
            out.extend_from_slice(b" FINAL")?;
            Ok(())
        }
        Statement::FlushQueue => out.extend_from_slice(b"SYSTEM FLUSH ASYNC INSERT QUEUE"),
    }
}
