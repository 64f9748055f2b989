ghost use Rattle.std.specs.Prelude.{◌≡◌, ◌++◌, codes, OnOk, IfOk};
ghost use Rattle.tree_meaning.specs.WellFormed.{IsWellFormed};
ghost use Rattle.query_meaning.specs.RowName as names;
ghost use Rattle.print_meaning.specs.Pieces.{in_quotes};
ghost use Rattle.print_meaning.specs.Print.{query_text, skipped};
ghost use Rattle.print_meaning.specs.Texts as texts;
ghost use Rattle.query_tree.specs.Queries.{query_view};

use crate::clauses::{put_clause, put_count, put_groups, put_offset, put_order};
use crate::lists::{put_alias, put_outputs};
use crate::query_text::{QueryText, put, put_name};
use query_tree::Query;
use snel_values::OutOfMemory;
use std::alloc::Global;

/// The text of the query, which is well formed, as each that was read is: keywords and function words in capitals, each
/// name between `"`, each path begun with the row's name, each operator form in parentheses. Read again it is the same
/// query, unless the text is too long, has too many tokens or nests too deep.
pub fn print(alloc: Global, query: &Query) -> Result<QueryText, OutOfMemory>
    requires { IsWellFormed (query_view query.now) }
    ensures { IfOk result (λ text. text ≡ query_text (query_view query.now)) }
{
    let mut text = QueryText::new(alloc);
    let row = row_name(query);
    put_front(&mut text, row, query)?;
    put_middle(&mut text, row, query)?;
    put_end(&mut text, row, query)?;
    Ok(text)
}

/// The row's name: the second name after FROM, or the first where it stands alone.
fn row_name(query: &Query) -> &str
    ensures { result.now ≡ names.row_name (query_view query.now) }
{
    match &query.alias {
        Some(alias) => alias.as_str(),
        None => query.source.as_str(),
    }
}

/// Adds SELECT and FROM.
fn put_front(text: &mut QueryText, row: &str, query: &Query) -> Result<(), OutOfMemory>
    requires { IsWellFormed (query_view query.now) }
    ensures { OnOk result (text.new ≡ text.old ++
        (codes "SELECT " ++ (texts.outs_text row.now (query_view query.now).outs ++
        (codes " FROM " ++ (in_quotes 34 (query_view query.now).source ++
        texts.alias_text (query_view query.now).alias))))) }
{
    put(text, "SELECT ")?;
    put_outputs(text, row, &query.outputs)?;
    put(text, " FROM ")?;
    put_name(text, query.source.as_str())?;
    put_alias(text, &query.alias)
}

/// Adds WHERE, GROUP BY and HAVING, each where it stands.
fn put_middle(text: &mut QueryText, row: &str, query: &Query) -> Result<(), OutOfMemory>
    requires { IsWellFormed (query_view query.now) }
    ensures { OnOk result (text.new ≡ text.old ++
        (texts.clause_text (codes " WHERE ") row.now (query_view query.now).filter ++
        (texts.groups_text row.now (query_view query.now).keys ++
        texts.clause_text (codes " HAVING ") row.now (query_view query.now).having))) }
{
    put_clause(text, " WHERE ", row, &query.filter)?;
    put_groups(text, row, &query.keys)?;
    put_clause(text, " HAVING ", row, &query.having)
}

/// Adds ORDER BY, LIMIT and OFFSET, each where it stands.
fn put_end(text: &mut QueryText, row: &str, query: &Query) -> Result<(), OutOfMemory>
    requires { IsWellFormed (query_view query.now) }
    ensures { OnOk result (text.new ≡ text.old ++
        (texts.order_text row.now (query_view query.now).order ++
        (texts.count_text (codes " LIMIT ") (query_view query.now).take ++
        texts.count_text (codes " OFFSET ") (skipped (query_view query.now).skip)))) }
{
    put_order(text, row, &query.order)?;
    put_count(text, " LIMIT ", query.take)?;
    put_offset(text, query.skip)
}
