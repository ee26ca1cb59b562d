// The keys of a query that groups.
ghost use Rattle.std.specs.Prelude.{◌≡◌, ◌++◌, ◌∷◌, [], List, IfErr, OnOk, Ok, Err};
ghost use Rattle.std.specs.Option.{option_copied};
ghost use Rattle.chv_ast.specs.declared.refusal.Refusal.{Refusal as SomeRefusal};
ghost use Rattle.chv_expr.specs.Bindings.{Means};
ghost use Rattle.chv_query.specs.Bound.{AnswersAs, AreKeys};
ghost use Rattle.chv_query.specs.Keys.{Key, aliased, aliased_item, key_of, key_term, key_tree, keys_of};

use crate::output::bind_one;
use chv_ast::{Expr, Item, Refusal};
use chv_catalog::{StatementFault, is_state, place};
use chv_expr::Bound;
use chv_print::expr_text;
use chv_types::{Bytes, Column, Columns};
use sqlite_items::Items;
use std::alloc::Global;

/// Keys: what gives their values, and the canonical texts of the expressions that they stand for.
#[derive(Drop)]
pub struct Keys {
    pub bounds: Items<Bound>,
    pub texts: Items<Bytes>,
}

/// The keys of a query over columns; a name that is no column's stands for the item with that alias.
pub fn bind_keys(
    alloc: Global,
    columns: &Columns,
    items: &[Item],
    keys: &[Expr],
) -> Result<Keys, StatementFault>
    ensures { AnswersAs (AreKeys columns.now) (keys_of columns.now items.now keys.now) result }
{
    let mut found = Keys {
        bounds: Items::new(alloc),
        texts: Items::new(alloc),
    };
    for key in keys {
        put_key(alloc, &mut found, columns, items, key)?;
    }
    Ok(found)
}

// Puts a key behind others.
fn put_key(
    alloc: Global,
    found: &mut Keys,
    columns: &Columns,
    items: &[Item],
    key: &Expr,
) -> Result<(), StatementFault>
    ensures put { OnOk result ((before : List Key) → AreKeys columns.now found.old before
        → (more : Key) × (key_of columns.now items.now key.now ≡ Ok more) × AreKeys columns.now found.new (before ++ more ∷ [])) }
    ensures refused { IfErr result (λ fault. (refusal : SomeRefusal) → fault ≡ StatementFault.Refused refusal → key_of columns.now items.now key.now ≡ Err refusal) }
{
    let Some(tree) = key_tree(columns.as_slice(), items, key) else {
        return Err(StatementFault::Refused(Refusal::UnknownColumn));
    };
    let bound = bind_key(alloc, columns, tree)?;
    let text = Bytes::from_vec(expr_text(alloc, tree)?);
    found.bounds.push(bound)?;
    found.texts.push(text)?;
    Ok(())
}

// Binds the expression of a key, which is no state.
fn bind_key(alloc: Global, columns: &Columns, tree: &Expr) -> Result<Bound, StatementFault>
    ensures { AnswersAs (Means columns.now) (key_term columns.now tree.now) result }
{
    let bound = bind_one(alloc, columns, tree)?;
    if is_state(bound.kind()) {
        return Err(StatementFault::Refused(Refusal::TypeMismatch));
    }
    Ok(bound)
}

/// The expression that a key stands for: a name that is no column's stands for the item with that alias.
pub fn key_tree<'a>(columns: &[Column], items: &'a [Item], key: &'a Expr) -> Option<&'a Expr>
    ensures { option_copied result ≡ key_tree columns.now items.now key.now }
{
    match key {
        Expr::Column(name) => {
            if place(columns, name.as_slice()).is_some() {
                return Some(key);
            }
            aliased(items, name.as_slice())
        }
        _ => Some(key),
    }
}

// The expression of the first item with an alias.
fn aliased<'a>(items: &'a [Item], name: &[u8]) -> Option<&'a Expr>
    ensures { option_copied result ≡ aliased name.now items.now }
{
    for item in items {
        if let Some(expr) = aliased_item(item, name) {
            return Some(expr);
        }
    }
    None
}

// The expression of an item, where it has this alias.
fn aliased_item<'a>(item: &'a Item, name: &[u8]) -> Option<&'a Expr>
    ensures { option_copied result ≡ aliased_item name.now item.now }
{
    match item {
        Item::All => None,
        Item::One { expr, alias } => match alias {
            None => None,
            Some(alias) => {
                if alias.as_slice() == name {
                    return Some(expr);
                }
                None
            }
        },
    }
}
