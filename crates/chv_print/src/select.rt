// The canonical text of queries.
ghost use Rattle.std.specs.Prelude.{◌≡◌, ◌++◌, [], if◌then◌else◌, OnOk};
ghost use Rattle.chv_print.specs.StatementTexts as spec;

use crate::expr::put_expr;
use crate::list::{Printed, put_list, put_list_behind, put_optional};
use crate::name::put_name;
use chv_ast::{Digits, Item, Order, Select};
use std::alloc::AllocError;

impl Printed for Item {
    ghost text = { spec.item_text };

    fn put(&self, out: &mut Vec<u8>) -> Result<(), AllocError> {
        match self {
            Item::All => {
                out.push(b'*')?;
                Ok(())
            }
            Item::One { expr, alias } => {
                put_expr(out, expr)?;
                put_optional(out, b" AS ", alias)
            }
        }
    }
}

impl Printed for Order {
    ghost text = { spec.order_text };

    fn put(&self, out: &mut Vec<u8>) -> Result<(), AllocError> {
        put_name(out, self.name.as_slice())?;
        put_flag(out, b" DESC", self.down)
    }
}

/// Puts words behind `out` where they are wanted.
fn put_flag(out: &mut Vec<u8>, words: &[u8], wanted: bool) -> Result<(), AllocError>
    ensures ok { OnOk result (out.new.items ≡ out.old.items ++ (if wanted then words.now else [])) }
{
    if wanted {
        out.extend_from_slice(words)
    } else {
        Ok(())
    }
}

/// Puts digits behind `out` and their words, and nothing where there are none.
pub fn put_digits(
    out: &mut Vec<u8>,
    words: &[u8],
    digits: &Option<Digits>,
) -> Result<(), AllocError>
    ensures ok { OnOk result (out.new.items ≡ out.old.items ++ spec.digits_text words.now digits.now) }
{
    match digits {
        None => Ok(()),
        Some(digits) => {
            out.extend_from_slice(words)?;
            out.extend_from_slice(digits.as_slice())
        }
    }
}

/// Puts a query behind `out`.
#[tactic(auto, unfolding(crate::specs::StatementTexts::select_text))]
pub fn put_select(out: &mut Vec<u8>, query: &Select) -> Result<(), AllocError>
    ensures ok { OnOk result (out.new.items ≡ out.old.items ++ spec.select_text query.now) }
{
    out.extend_from_slice(b"SELECT ")?;
    put_list(out, query.items.as_slice())?;
    out.extend_from_slice(b" FROM ")?;
    put_name(out, query.table.as_slice())?;
    put_flag(out, b" FINAL", query.merged)?;
    put_optional(out, b" WHERE ", &query.filter)?;
    put_list_behind(out, b" GROUP BY ", query.keys.as_slice())?;
    put_list_behind(out, b" ORDER BY ", query.order.as_slice())?;
    put_digits(out, b" LIMIT ", &query.limit)?;
    Ok(())
}
