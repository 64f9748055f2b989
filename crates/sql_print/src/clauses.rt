ghost use Rattle.std.specs.Prelude.{◌≡◌, ◌++◌, codes, IfSome, OnOk, All};
ghost use Rattle.tree_meaning.specs.WellFormed.{IsFormed, IsKey};
ghost use Rattle.print_meaning.specs.Print.{skipped};
ghost use Rattle.print_meaning.specs.Texts as texts;

use crate::exprs::{put_expr, put_exprs};
use crate::lists::put_keys;
use crate::query_text::{QueryText, put, put_digits};
use query_tree::{Exprs, Operand, OrderKeys};
use snel_values::OutOfMemory;

/// Adds the words and the expression, if there is one.
pub(crate) fn put_clause(
    text: &mut QueryText,
    words: &str,
    row: &str,
    of: &Option<Operand>,
) -> Result<(), OutOfMemory>
    requires { IfSome of.now IsFormed }
    ensures { OnOk result (text.new ≡ text.old ++ texts.clause_text words.now row.now of.now) }
{
    match of {
        Some(of) => {
            put(text, words)?;
            put_expr(text, row, of.get())
        }
        None => Ok(()),
    }
}

/// Adds GROUP BY and its keys, if there are any.
pub(crate) fn put_groups(text: &mut QueryText, row: &str, keys: &Exprs) -> Result<(), OutOfMemory>
    requires { All IsFormed keys.now }
    ensures { OnOk result (text.new ≡ text.old ++ texts.groups_text row.now keys.now) }
{
    if keys.len() == 0 {
        return Ok(());
    }
    put(text, " GROUP BY ")?;
    put_exprs(text, row, keys)
}

/// Adds ORDER BY and its keys, if there are any.
pub(crate) fn put_order(
    text: &mut QueryText,
    row: &str,
    keys: &OrderKeys,
) -> Result<(), OutOfMemory>
    requires { All IsKey keys.now }
    ensures { OnOk result (text.new ≡ text.old ++ texts.order_text row.now keys.now) }
{
    if keys.len() == 0 {
        return Ok(());
    }
    put(text, " ORDER BY ")?;
    put_keys(text, row, keys)
}

/// Adds the words and the number, if there is one.
pub(crate) fn put_count(
    text: &mut QueryText,
    words: &str,
    count: Option<u64>,
) -> Result<(), OutOfMemory>
    ensures { OnOk result (text.new ≡ text.old ++ texts.count_text words.now count) }
{
    match count {
        Some(count) => {
            put(text, words)?;
            put_digits(text, u128::from(count))
        }
        None => Ok(()),
    }
}

/// Adds OFFSET and the count, unless it is 0.
pub(crate) fn put_offset(text: &mut QueryText, skip: u64) -> Result<(), OutOfMemory>
    ensures { OnOk result (text.new ≡ text.old ++
        texts.count_text (codes " OFFSET ") (skipped skip)) }
{
    if skip == 0 {
        return Ok(());
    }
    put(text, " OFFSET ")?;
    put_digits(text, u128::from(skip))
}
