//! The values of expressions over a group.

ghost use Rattle.std.specs.Prelude.{◌≡◌, IfOk, map};
ghost use Rattle.check_meaning.specs.Places.{order_ex};
ghost use Rattle.made_meaning.specs.MadeRows.{has_true};
ghost use Rattle.snel_values.specs.View.{view};
ghost use Rattle.hash_agg.specs.Finished.{row_view};
ghost use Rattle.group_out.specs.Values.{value_of_row};

use eval_row::{KnownParts, eval_known};
use eval_values::is_true;
use hash_agg::GroupRow;
use query_check::Checked;
use query_tree::Operand;
use snel_values::{Items, OutOfMemory, Value};
use std::alloc::Global;

/// The value of an expression over a group, from the group's row.
pub(crate) fn value_over(
    alloc: Global,
    checked: &Checked,
    row: &GroupRow,
    of: &Operand,
) -> Result<Value, OutOfMemory>
    ensures { IfOk result (λ v. view v ≡ value_of_row checked.now (row_view row.now) of.now) }
{
    let known = KnownParts {
        keys: &checked.query().keys,
        key_values: &row.keys,
        aggs: checked.aggs(),
        agg_values: &row.aggs,
    };
    eval_known(alloc, of, &known, &Value::Missing, &Value::Missing)
}

/// Whether HAVING keeps the group.
pub(crate) fn is_kept(alloc: Global, checked: &Checked, row: &GroupRow) -> Result<bool, OutOfMemory>
    ensures { IfOk result (λ kept. kept ≡
        has_true checked.now.having (value_of_row checked.now (row_view row.now))) }
{
    match &checked.query().having {
        Some(test) => {
            let value = value_over(alloc, checked, row, test)?;
            Ok(is_true(&value))
        }
        None => Ok(true),
    }
}

/// The values of the order keys over the group.
pub(crate) fn sort_keys(
    alloc: Global,
    checked: &Checked,
    row: &GroupRow,
) -> Result<Items, OutOfMemory>
    ensures { IfOk result (λ keys. keys ≡
        map (λ k. value_of_row checked.now (row_view row.now) (order_ex checked.now.outs k.0))
        checked.now.order) }
{
    let order = &checked.query().order;
    let mut keys = Items::new(alloc);
    for at in 0..order.len() {
        let Some(key) = order.get(at) else {
            unreachable!();
        };
        let expr = checked.order_ex(&key.expr);
        keys.push(value_over(alloc, checked, row, expr)?)?;
    }
    Ok(keys)
}
