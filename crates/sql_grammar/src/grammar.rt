ghost use Rattle.query_meaning.specs.Reading as spec;
ghost use Rattle.sql_grammar.specs.Rules as rule;
ghost use Rattle.sql_words.specs.ReadsAt.{ReadsAt};
ghost use Rattle.sql_grammar.specs.Nests.{Nests};

use query_meaning::Mark;
use query_tree::{Exprs, Operand};
use sql_words::{Look, ParseFault, after};
use std::alloc::Global;

/// An expression, within which there is room for so many.
#[tactic(auto, unfolding(query_meaning::specs::Reading::expr_at))]
pub fn expr(
    alloc: Global,
    room: usize,
    looks: &[Look<'_>],
    at: usize,
) -> Result<(Operand, usize), ParseFault>
    ensures { ReadsAt looks.now at result (spec.expr_at room) }
{
    if room == 0 {
        return Err(ParseFault::NotAQuery);
    }
    let grammar = Grammar {
        alloc,
        room: room - 1,
        expr,
    };
    grammar.disjunction(looks, at)
}

/// Expressions with commas between them.
pub fn list(
    alloc: Global,
    room: usize,
    looks: &[Look<'_>],
    at: usize,
) -> Result<(Exprs, usize), ParseFault>
    ensures { ReadsAt looks.now at result (rule.list room) }
{
    let grammar = Grammar { alloc, room, expr };
    grammar.list(looks, at)
}

/// The rules of expressions, over a reader of the expressions that stand within one.
#[derive(Clone, Copy)]
pub struct Grammar<F> {
    pub alloc: Global,
    /// For how many more there is room within.
    pub room: usize,
    /// Reads an expression, within which there is room for so many, at a place.
    pub expr: F,
}

impl<F: Fn(Global, usize, &[Look<'_>], usize) -> Result<(Operand, usize), ParseFault>> Grammar<F> {
    /// An expression within.
    pub(crate) fn expr(&self, looks: &[Look<'_>], at: usize) -> Result<(Operand, usize), ParseFault>
        requires { Nests self.now.room (F.pre self.now.expr) (F.post self.now.expr) }
        ensures { ReadsAt looks.now at result (spec.expr_at self.now.room) }
    {
        (self.expr)(self.alloc, self.room, looks, at)
    }

    /// Expressions with commas between them.
    pub(crate) fn list(&self, looks: &[Look<'_>], at: usize) -> Result<(Exprs, usize), ParseFault>
        requires { Nests self.now.room (F.pre self.now.expr) (F.post self.now.expr) }
        ensures { ReadsAt looks.now at result (rule.list self.now.room) }
    {
        let mut all = Exprs::new(self.alloc);
        let mut rest = at;
        for _turn in 0..self.room {
            let (one, next) = self.expr(looks, rest)?;
            all.push(one)?;
            let Some(behind) = after(looks, next, Mark::Comma) else {
                return Ok((all, next));
            };
            rest = behind;
        }
        Err(ParseFault::NotAQuery)
    }
}
