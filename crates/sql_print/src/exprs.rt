ghost use Rattle.std.specs.Prelude.{◌≡◌, ◌++◌, codes, OnOk};
ghost use Rattle.tree_meaning.specs.Tree as tree;
ghost use Rattle.query_meaning.specs.Words.{function_text};
ghost use Rattle.tree_meaning.specs.WellFormed.{IsFormed, AreFormed, ArmsAreFormed};
ghost use Rattle.print_meaning.specs.Print.{agg_word};
ghost use Rattle.print_meaning.specs.Texts as texts;
ghost use Rattle.query_tree.specs.View.{view};

use crate::paths::put_path;
use crate::places::{arm_at, expr_at, put_separator};
use crate::query_text::{QueryText, put, put_literal, put_string};
use crate::words::{
    agg_name, cast_word, func_name, match_before, match_between, op_words, part_name, what_word,
};
use query_tree::{Arm, Arms, Expr, Exprs, Operand};
use snel_values::{OutOfMemory, Text};
use tree_meaning::{AggName, BinOp, CastTo, Func, How, IsWhat, Part};

/// Adds the expression of a query whose row has this name. Each form has a function of its own, so that the frames of a
/// deep tree are small.
#[cycle(put)]
#[tactic(auto, using(print_meaning::proofs::PrintedTexts::lit_text, print_meaning::proofs::PrintedTexts::path_text, print_meaning::proofs::PrintedTexts::rows_text))]
pub(crate) fn put_expr(text: &mut QueryText, row: &str, expr: &Expr) -> Result<(), OutOfMemory>
    requires { IsFormed (view expr.now) }
    ensures { OnOk result (text.new ≡ text.old ++ texts.text row.now (view expr.now)) }
{
    match expr {
        Expr::Lit(value) => put_literal(text, value),
        Expr::Path { row: _, steps } => put_path(text, row, steps),
        Expr::Neg(of) => put_neg(text, row, of),
        Expr::Not(of) => put_not(text, row, of),
        Expr::Bin { op, left, right } => put_bin(text, row, *op, left, right),
        Expr::Is { what, of } => put_is(text, row, *what, of),
        Expr::In { of, list } => put_in(text, row, of, list),
        Expr::Between { of, low, high } => put_between(text, row, of, low, high),
        Expr::Match {
            how,
            of,
            text: matched,
        } => put_match(text, row, *how, of, matched),
        Expr::Case { arms, other } => put_case(text, row, arms, other),
        Expr::Cast { of, to } => put_cast(text, row, of, *to),
        Expr::Call { name, args } => put_call(text, row, *name, args),
        Expr::Trunc { part, of } => put_trunc(text, row, *part, of),
        Expr::Extract { part, of } => put_extract(text, row, *part, of),
        Expr::Shift { part, count, of } => put_shift(text, row, *part, count, of),
        Expr::Agg { name, of: None } => put_count_of_rows(text, *name),
        Expr::Agg { name, of: Some(of) } => put_agg(text, row, *name, of),
    }
}

/// Adds the operand between two pieces.
#[cycle(put)]
fn put_within(
    text: &mut QueryText,
    before: &str,
    row: &str,
    of: &Operand,
    after: &str,
) -> Result<(), OutOfMemory>
    requires { IsFormed of.now }
    ensures { OnOk result (text.new ≡ text.old ++
        (before.now ++ (texts.text row.now of.now ++ after.now))) }
{
    put(text, before)?;
    put_expr(text, row, of.get())?;
    put(text, after)
}

/// Adds `(-of)`.
#[cycle(put)]
#[tactic(auto, using(print_meaning::proofs::PrintedTexts::neg_text))]
fn put_neg(text: &mut QueryText, row: &str, of: &Operand) -> Result<(), OutOfMemory>
    requires { IsFormed of.now }
    ensures { OnOk result (text.new ≡ text.old ++ texts.text row.now (tree.neg of.now)) }
{
    put_within(text, "(-", row, of, ")")
}

/// Adds `(NOT of)`.
#[cycle(put)]
#[tactic(auto, using(print_meaning::proofs::PrintedTexts::not_text))]
fn put_not(text: &mut QueryText, row: &str, of: &Operand) -> Result<(), OutOfMemory>
    requires { IsFormed of.now }
    ensures { OnOk result (text.new ≡ text.old ++ texts.text row.now (tree.no of.now)) }
{
    put_within(text, "(NOT ", row, of, ")")
}

/// Adds `(left op right)`.
#[cycle(put)]
#[tactic(auto, using(print_meaning::proofs::PrintedTexts::bin_text))]
fn put_bin(
    text: &mut QueryText,
    row: &str,
    op: BinOp,
    left: &Operand,
    right: &Operand,
) -> Result<(), OutOfMemory>
    requires { IsFormed left.now × IsFormed right.now }
    ensures { OnOk result (text.new ≡ text.old ++
        texts.text row.now (tree.bin op left.now right.now)) }
{
    put_within(text, "(", row, left, op_words(op))?;
    put_within(text, "", row, right, ")")
}

/// Adds `(of IS what)`.
#[cycle(put)]
#[tactic(auto, using(print_meaning::proofs::PrintedTexts::is_text))]
fn put_is(text: &mut QueryText, row: &str, what: IsWhat, of: &Operand) -> Result<(), OutOfMemory>
    requires { IsFormed of.now }
    ensures { OnOk result (text.new ≡ text.old ++ texts.text row.now (tree.is what of.now)) }
{
    put_within(text, "(", row, of, " IS ")?;
    put(text, what_word(what))?;
    put(text, ")")
}

/// Adds `(of IN (list))`.
#[cycle(put)]
#[tactic(auto, using(print_meaning::proofs::PrintedTexts::member_text))]
fn put_in(text: &mut QueryText, row: &str, of: &Operand, list: &Exprs) -> Result<(), OutOfMemory>
    requires of { IsFormed of.now }
    requires list { AreFormed (tree.exs list.now) }
    ensures { OnOk result (text.new ≡ text.old ++
        texts.text row.now (tree.member of.now (tree.exs list.now))) }
{
    put_within(text, "(", row, of, " IN (")?;
    put_exprs(text, row, list)?;
    put(text, "))")
}

/// Adds `(of BETWEEN low AND high)`.
#[cycle(put)]
#[tactic(auto, using(print_meaning::proofs::PrintedTexts::between_three))]
fn put_between(
    text: &mut QueryText,
    row: &str,
    of: &Operand,
    low: &Operand,
    high: &Operand,
) -> Result<(), OutOfMemory>
    requires { IsFormed of.now × IsFormed low.now × IsFormed high.now }
    ensures { OnOk result (text.new ≡ text.old ++
        texts.text row.now (tree.between of.now low.now high.now)) }
{
    put_within(text, "(", row, of, " BETWEEN ")?;
    put_within(text, "", row, low, " AND ")?;
    put_within(text, "", row, high, ")")
}

/// Adds `(of LIKE matched)`, `(of ILIKE matched)`, or the call of a function that matches.
#[cycle(put)]
#[tactic(auto, using(crate::proofs::MatchTexts::matching_text))]
fn put_match(
    text: &mut QueryText,
    row: &str,
    how: How,
    of: &Operand,
    matched: &Text,
) -> Result<(), OutOfMemory>
    requires { IsFormed of.now }
    ensures { OnOk result (text.new ≡ text.old ++
        texts.text row.now (tree.matching how of.now matched.now)) }
{
    put_within(text, match_before(how), row, of, match_between(how))?;
    put_string(text, matched.as_str())?;
    put(text, ")")
}

/// Adds the arms of a CASE, and its ELSE.
#[cycle(put)]
#[tactic(auto, using(print_meaning::proofs::PrintedTexts::case_text))]
fn put_case(
    text: &mut QueryText,
    row: &str,
    arms: &Arms,
    other: &Operand,
) -> Result<(), OutOfMemory>
    requires arms { ArmsAreFormed (tree.arms arms.now) }
    requires other { IsFormed other.now }
    ensures { OnOk result (text.new ≡ text.old ++
        texts.text row.now (tree.choice (tree.arms arms.now) other.now)) }
{
    put(text, "(CASE")?;
    put_arms(text, row, arms)?;
    put_within(text, " ELSE ", row, other, " END)")
}

/// Adds `CAST(of AS to)`.
#[cycle(put)]
#[tactic(auto, using(print_meaning::proofs::PrintedTexts::cast_call_text))]
fn put_cast(text: &mut QueryText, row: &str, of: &Operand, to: CastTo) -> Result<(), OutOfMemory>
    requires { IsFormed of.now }
    ensures { OnOk result (text.new ≡ text.old ++ texts.text row.now (tree.cast to of.now)) }
{
    put_within(text, "CAST(", row, of, " AS ")?;
    put(text, cast_word(to))?;
    put(text, ")")
}

/// Adds the call of a function of values.
#[cycle(put)]
#[tactic(auto, using(print_meaning::proofs::PrintedTexts::call_text))]
fn put_call(text: &mut QueryText, row: &str, name: Func, args: &Exprs) -> Result<(), OutOfMemory>
    requires { AreFormed (tree.exs args.now) }
    ensures { OnOk result (text.new ≡ text.old ++
        texts.text row.now (tree.call name (tree.exs args.now))) }
{
    put(text, func_name(name))?;
    put(text, "(")?;
    put_exprs(text, row, args)?;
    put(text, ")")
}

/// Adds `DATE_TRUNC(part, of)`.
#[cycle(put)]
#[tactic(auto, using(print_meaning::proofs::PrintedTexts::trunc_text))]
fn put_trunc(text: &mut QueryText, row: &str, part: Part, of: &Operand) -> Result<(), OutOfMemory>
    requires { IsFormed of.now }
    ensures { OnOk result (text.new ≡ text.old ++ texts.text row.now (tree.trunc part of.now)) }
{
    put(text, "DATE_TRUNC(")?;
    put(text, part_name(part))?;
    put_within(text, ", ", row, of, ")")
}

/// Adds `EXTRACT(part FROM of)`.
#[cycle(put)]
#[tactic(auto, using(print_meaning::proofs::PrintedTexts::extract_text))]
fn put_extract(text: &mut QueryText, row: &str, part: Part, of: &Operand) -> Result<(), OutOfMemory>
    requires { IsFormed of.now }
    ensures { OnOk result (text.new ≡ text.old ++ texts.text row.now (tree.extract part of.now)) }
{
    put(text, "EXTRACT(")?;
    put(text, part_name(part))?;
    put_within(text, " FROM ", row, of, ")")
}

/// Adds `DATE_ADD(part, count, of)`.
#[cycle(put)]
#[tactic(auto, using(print_meaning::proofs::PrintedTexts::shift_text))]
fn put_shift(
    text: &mut QueryText,
    row: &str,
    part: Part,
    count: &Operand,
    of: &Operand,
) -> Result<(), OutOfMemory>
    requires { IsFormed count.now × IsFormed of.now }
    ensures { OnOk result (text.new ≡ text.old ++
        texts.text row.now (tree.shift part count.now of.now)) }
{
    put(text, "DATE_ADD(")?;
    put(text, part_name(part))?;
    put_within(text, ", ", row, count, ", ")?;
    put_within(text, "", row, of, ")")
}

/// Adds the call of an aggregate of rows.
fn put_count_of_rows(text: &mut QueryText, name: AggName) -> Result<(), OutOfMemory>
    ensures { OnOk result (text.new ≡ text.old ++ (function_text (agg_word name) ++ codes "(*)")) }
{
    put(text, agg_name(name))?;
    put(text, "(*)")
}

/// Adds the call of an aggregate of an expression.
#[cycle(put)]
#[tactic(auto, using(print_meaning::proofs::PrintedTexts::agg_text))]
fn put_agg(text: &mut QueryText, row: &str, name: AggName, of: &Operand) -> Result<(), OutOfMemory>
    requires { IsFormed of.now }
    ensures { OnOk result (text.new ≡ text.old ++ texts.text row.now (tree.agg name of.now)) }
{
    put(text, agg_name(name))?;
    put_within(text, "(", row, of, ")")
}

/// Adds the expression of a list at a place, counted from 0, behind `, ` where one stands before.
#[cycle(put)]
fn put_listed(text: &mut QueryText, row: &str, of: &Operand, at: usize) -> Result<(), OutOfMemory>
    requires { IsFormed of.now }
    ensures { OnOk result (text.new ≡ text.old ++
        (texts.separator at ++ texts.text row.now of.now)) }
{
    put_separator(text, at)?;
    put_expr(text, row, of.get())
}

/// Adds the expressions with `, ` between them.
#[cycle(put)]
pub(crate) fn put_exprs(text: &mut QueryText, row: &str, list: &Exprs) -> Result<(), OutOfMemory>
    requires { AreFormed (tree.exs list.now) }
    ensures { OnOk result (text.new ≡ text.old ++ texts.list_text row.now list.now) }
{
    for at in 0..list.len() {
        put_listed(text, row, expr_at(list, at), at)?;
    }
    Ok(())
}

/// Adds ` WHEN test THEN value`.
#[cycle(put)]
fn put_arm(text: &mut QueryText, row: &str, arm: &Arm) -> Result<(), OutOfMemory>
    requires { IsFormed arm.now.test × IsFormed arm.now.value }
    ensures { OnOk result (text.new ≡ text.old ++
        (codes " WHEN " ++ (texts.text row.now arm.now.test ++
        (codes " THEN " ++ texts.text row.now arm.now.value)))) }
{
    put_within(text, " WHEN ", row, &arm.test, " THEN ")?;
    put_within(text, "", row, &arm.value, "")
}

/// Adds the arms of a CASE, each behind a space.
#[cycle(put)]
fn put_arms(text: &mut QueryText, row: &str, list: &Arms) -> Result<(), OutOfMemory>
    requires { ArmsAreFormed (tree.arms list.now) }
    ensures { OnOk result (text.new ≡ text.old ++ texts.arms_text row.now list.now) }
{
    for at in 0..list.len() {
        put_arm(text, row, arm_at(list, at))?;
    }
    Ok(())
}
