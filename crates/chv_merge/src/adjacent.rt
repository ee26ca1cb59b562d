// Adjacent rows of one key as one.
ghost use Rattle.std.specs.Prelude.{◌≡◌, ◌++◌, ◌∷◌, false, true, IfOk, OnOk};
ghost use Rattle.std.specs.List.{All};
ghost use Rattle.std.specs.List.Sorted.{IsSortedBy};
ghost use Rattle.std.specs.Ordering.{is_eq};
ghost use Rattle.chv_agg.specs.OfKinds.{AllAreOf};
ghost use Rattle.chv_merge.specs.Merging.{begins_alike};
ghost use Rattle.chv_merge.specs.NormalForms.{aggregated, before, values_at};
ghost use Rattle.chv_types.specs.Order.{row_cmp};

use crate::column::merge_run;
use crate::normal_form::order_at;
use chv_types::{Kinds, Places, Row};
use std::alloc::{AllocError, Global};
use std::collections::VecDeque;

/// Rows that stand in the order of their keys, those of each key as one.
pub(crate) fn merge_adjacent(
    alloc: Global,
    kinds: &Kinds,
    key: &Places,
    rows: Vec<Row>,
) -> Result<Vec<Row>, AllocError>
    requires kinds { AllAreOf kinds.now rows.items }
    requires sorted { IsSortedBy (before key.now) rows.items }
    ensures rows { IfOk result (λ merged. merged.items ≡ aggregated kinds.now key.now rows.items) }
    ensures kinds { IfOk result (λ merged. AllAreOf kinds.now merged.items) }
{
    let mut merged = Vec::new(alloc);
    let mut left = VecDeque::from_vec(rows);
    while let Some(first) = left.pop_front() {
        let others = take_alike(alloc, key, &first, &mut left)?;
        merged.push(merge_run(alloc, kinds, key, first, &others)?)?;
    }
    Ok(merged)
}

// Takes the rows in front that have the key of a row.
fn take_alike(
    alloc: Global,
    key: &Places,
    row: &Row,
    left: &mut VecDeque<Row>,
) -> Result<Vec<Row>, AllocError>
    ensures taken { IfOk result (λ alike. left.old.items ≡ alike.items ++ left.new.items) }
    ensures alike { IfOk result (λ alike. All (λ other. is_eq (row_cmp (values_at key.now row.now) (values_at key.now other)) ≡ true) alike.items) }
    ensures left { OnOk result (begins_alike key.now row.now left.new.items ≡ false) }
{
    let mut alike = Vec::new(alloc);
    while is_next_alike(key, row, left) {
        match left.pop_front() {
            Some(other) => alike.push(other)?,
            None => return Ok(alike),
        }
    }
    Ok(alike)
}

// Whether the first of rows has the key of a row.
fn is_next_alike(key: &Places, row: &Row, rows: &VecDeque<Row>) -> bool
    ensures { result ≡ begins_alike key.now row.now rows.now.items }
{
    match rows.front() {
        Some(first) => order_at(key.as_slice(), row, first).is_eq(),
        None => false,
    }
}
