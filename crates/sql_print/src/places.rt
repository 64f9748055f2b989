ghost use Rattle.std.specs.Prelude.{◌≡◌, ◌++◌, ◌<◌, length, slice_get, Some, OnOk};
ghost use Rattle.query_tree.specs.View.{arm_view};
ghost use Rattle.query_tree.specs.Parts.{item_view, key_view};
ghost use Rattle.print_meaning.specs.Texts.{separator};

use crate::query_text::{QueryText, put};
use query_tree::{Arm, Arms, Exprs, Item, Operand, OrderKey, OrderKeys, OutItems};
use snel_values::OutOfMemory;

/// Adds what stands before the member of a list at a place, counted from 0.
pub(crate) fn put_separator(text: &mut QueryText, at: usize) -> Result<(), OutOfMemory>
    ensures { OnOk result (text.new ≡ text.old ++ separator at) }
{
    if at == 0 { Ok(()) } else { put(text, ", ") }
}

/// The expression of a list at a place, counted from 0.
pub(crate) fn expr_at(list: &Exprs, at: usize) -> &Operand
    requires { at < length list.now }
    ensures { slice_get list.now at ≡ Some result.now }
{
    match list.get(at) {
        Some(found) => found,
        None => unreachable!(),
    }
}

/// The arm of a CASE at a place, counted from 0.
pub(crate) fn arm_at(list: &Arms, at: usize) -> &Arm
    requires { at < length list.now }
    ensures { slice_get list.now at ≡ Some (arm_view result.now) }
{
    match list.get(at) {
        Some(found) => found,
        None => unreachable!(),
    }
}

/// The output at a place, counted from 0.
pub(crate) fn item_at(list: &OutItems, at: usize) -> &Item
    requires { at < length list.now }
    ensures { slice_get list.now at ≡ Some (item_view result.now) }
{
    match list.get(at) {
        Some(found) => found,
        None => unreachable!(),
    }
}

/// The order key at a place, counted from 0.
pub(crate) fn key_at(list: &OrderKeys, at: usize) -> &OrderKey
    requires { at < length list.now }
    ensures { slice_get list.now at ≡ Some (key_view result.now) }
{
    match list.get(at) {
        Some(found) => found,
        None => unreachable!(),
    }
}
