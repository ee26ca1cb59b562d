// CREATE MATERIALIZED VIEW.
ghost use Rattle.std.specs.Prelude.{◌≡◌, ◌≤◌, length, Ok, Err, IfOk, IfErr};
ghost use Rattle.chv_ast.specs.declared.refusal.Refusal.{Refusal};
ghost use Rattle.chv_print.specs.StatementTexts.{statement_text};
ghost use Rattle.chv_define.specs.Checks.{checked_paths, linked, number_in};
ghost use Rattle.chv_query.specs.Views.{defined_view, view_with};

use crate::Defined;
use crate::checks::{check_free, refuse_if, short_view_text};
use crate::outputs::check_select;
use chv_ast::{CreateView, Name, Refusal, Statement};
use chv_catalog::{Link, Schema, StatementFault, ViewDef};
use std::alloc::Global;

/// The view that a CREATE MATERIALIZED VIEW statement defines beside the tables and views that stand, with the statement's
/// text. It is refused by the first check that holds.
pub fn define_view(
    alloc: Global,
    schema: &Schema,
    made: CreateView,
) -> Result<Defined<ViewDef>, StatementFault>
    ensures defined { IfOk result (λ view. defined_view schema.now.catalog made ≡ Ok view.def) }
    ensures text { IfOk result (λ view. view.text.items ≡ statement_text (Statement.CreateView made)) }
    ensures refused { IfErr result (λ fault. (refusal : Refusal) → fault ≡ StatementFault.Refused refusal → defined_view schema.now.catalog made ≡ Err refusal) }
{
    let PassedView { link, text } = check_view(alloc, schema, &made)?;
    let CreateView { name, select, .. } = made;
    let def = ViewDef {
        name,
        source: link.source,
        target: link.target,
        select,
    };
    Ok(Defined { def, text })
}

// The tables that a view links, and the canonical text of its statement.
#[derive(Drop)]
struct PassedView {
    link: Link,
    text: Vec<u8>,
}

// What the checks of a view find, or the first check that refuses it.
fn check_view(
    alloc: Global,
    schema: &Schema,
    made: &CreateView,
) -> Result<PassedView, StatementFault>
    ensures passed { IfOk result (λ view. defined_view schema.now.catalog made.now ≡ Ok (view_with made.now view.link.source view.link.target)) }
    ensures text { IfOk result (λ view. view.text.items ≡ statement_text (Statement.CreateView made.now)) }
    ensures refused { IfErr result (λ fault. (refusal : Refusal) → fault ≡ StatementFault.Refused refusal → defined_view schema.now.catalog made.now ≡ Err refusal) }
{
    check_free(schema, &made.name)?;
    let link = link_of(schema, made)?;
    let target = schema.table_def(link.target);
    check_select(alloc, schema, &made.select, &target.columns)?;
    check_paths(schema, link)?;
    let text = short_view_text(alloc, made)?;
    Ok(PassedView { link, text })
}

// The tables that a view links, which both stand.
#[tactic(auto, unfolding(crate::specs::Checks::linked))]
fn link_of(schema: &Schema, made: &CreateView) -> Result<Link, Refusal>
    ensures link { result ≡ linked schema.now.catalog made.now }
    ensures within { IfOk result (λ link. (1 ≤ link.target) × (link.target ≤ length schema.now.catalog.tables)) }
{
    let source = number_of(schema, &made.select.table)?;
    let target = number_of(schema, &made.target)?;
    Ok(Link { source, target })
}

// The number of the table of a name.
fn number_of(schema: &Schema, name: &Name) -> Result<u32, Refusal>
    ensures number { result ≡ number_in schema.now.catalog name.now }
    ensures within { IfOk result (λ table. (1 ≤ table) × (table ≤ length schema.now.catalog.tables)) }
{
    schema.table(name.as_slice()).ok_or(Refusal::UnknownTable)
}

// A view closes no cycle, and makes neither too many paths nor too long ones.
#[tactic(auto, unfolding(crate::specs::Checks::checked_paths))]
fn check_paths(schema: &Schema, link: Link) -> Result<(), Refusal>
    ensures { result ≡ checked_paths schema.now.catalog link }
{
    refuse_if(schema.reaches(link.target, link.source), Refusal::ViewCycle)?;
    refuse_if(schema.passes_limits_with(link), Refusal::TooManyPaths)
}
