ghost use Rattle.std.specs.Prelude.{◌≡◌};
ghost use Rattle.query_meaning.specs.Reading as spec;
ghost use Rattle.sql_words.specs.Gives.{Gives};
ghost use Rattle.sql_grammar.specs.CallForms.{both, only, takes};
ghost use Rattle.sql_grammar.specs.HeadView.{head_view};
ghost use Rattle.sql_grammar.specs.declared.heads.Head.TheVariants as of;

use crate::heads::Head;
use query_tree::{Expr, Exprs, Operand};
use sql_words::ParseFault;
use std::alloc::Global;
use tree_meaning::{AggName, Func, Part};

/// The call with this head and these expressions, if it takes so many.
pub(crate) fn made(alloc: Global, head: Head, args: Exprs) -> Result<Operand, ParseFault>
    ensures { Gives (λ e. e) result (spec.made (head_view head) args) }
{
    match head {
        Head::Function(name) => function(alloc, name, args),
        Head::Aggregate(name) => aggregate(alloc, name, args),
        Head::Truncation(part) => truncation(alloc, part, args),
        Head::Extraction(part) => extraction(alloc, part, args),
        Head::Addition(part) => addition(alloc, part, args),
    }
}

/// A call of a function of values.
#[tactic(auto, using(crate::proofs::MadeForms::function_made))]
fn function(alloc: Global, name: Func, args: Exprs) -> Result<Operand, ParseFault>
    ensures { Gives (λ e. e) result (spec.made (head_view (of.Function name)) args) }
{
    if !takes(name, &args) {
        return Err(ParseFault::NotAQuery);
    }
    Ok(Operand::new(alloc, Expr::Call { name, args })?)
}

/// A call of an aggregate of an expression.
#[tactic(auto, using(crate::proofs::MadeForms::aggregate_made))]
fn aggregate(alloc: Global, name: AggName, args: Exprs) -> Result<Operand, ParseFault>
    ensures { Gives (λ e. e) result (spec.made (head_view (of.Aggregate name)) args) }
{
    let of = Some(only(args)?);
    Ok(Operand::new(alloc, Expr::Agg { name, of })?)
}

/// A call of DATE_TRUNC.
#[tactic(auto, using(crate::proofs::MadeForms::truncation_made))]
fn truncation(alloc: Global, part: Part, args: Exprs) -> Result<Operand, ParseFault>
    ensures { Gives (λ e. e) result (spec.made (head_view (of.Truncation part)) args) }
{
    let of = only(args)?;
    Ok(Operand::new(alloc, Expr::Trunc { part, of })?)
}

/// A call of EXTRACT.
#[tactic(auto, using(crate::proofs::MadeForms::extraction_made))]
fn extraction(alloc: Global, part: Part, args: Exprs) -> Result<Operand, ParseFault>
    ensures { Gives (λ e. e) result (spec.made (head_view (of.Extraction part)) args) }
{
    let of = only(args)?;
    Ok(Operand::new(alloc, Expr::Extract { part, of })?)
}

/// A call of DATE_ADD.
#[tactic(auto, using(crate::proofs::MadeForms::addition_made))]
fn addition(alloc: Global, part: Part, args: Exprs) -> Result<Operand, ParseFault>
    ensures { Gives (λ e. e) result (spec.made (head_view (of.Addition part)) args) }
{
    let (count, of) = both(args)?;
    Ok(Operand::new(alloc, Expr::Shift { part, count, of })?)
}

/// Whether a function takes these expressions.
fn takes(name: Func, args: &Exprs) -> bool
    ensures { result ≡ takes name args.now }
{
    let count = args.len();
    match name {
        Func::Coalesce => count != 0,
        Func::NullIf => count == 2,
        Func::CharLength | Func::UnixEpoch | Func::UnixMicro => count == 1,
    }
}

/// The one expression of a list that has no other.
fn only(list: Exprs) -> Result<Operand, ParseFault>
    ensures { Gives (λ e. e) result (only list) }
{
    let mut list = list;
    let Some(last) = list.pop() else {
        return Err(ParseFault::NotAQuery);
    };
    match list.pop() {
        None => Ok(last),
        Some(_) => Err(ParseFault::NotAQuery),
    }
}

/// The two expressions of a list that has no other.
fn both(list: Exprs) -> Result<(Operand, Operand), ParseFault>
    ensures { Gives (λ x. x) result (both list) }
{
    let mut list = list;
    let Some(last) = list.pop() else {
        return Err(ParseFault::NotAQuery);
    };
    let first = only(list)?;
    Ok((first, last))
}
