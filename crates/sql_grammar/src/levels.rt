ghost use Rattle.sql_grammar.specs.Rules as rule;
ghost use Rattle.sql_words.specs.ReadsAt.{ReadsAt};
ghost use Rattle.sql_grammar.specs.Nests.{IsReader, Nests};

use crate::grammar::Grammar;
use query_meaning::{Level, Mark};
use query_tree::Operand;
use sql_forms::{binary, negs, nots};
use sql_words::{Look, ParseFault, operator_at, skip};
use std::alloc::Global;

impl<F: Fn(Global, usize, &[Look<'_>], usize) -> Result<(Operand, usize), ParseFault>> Grammar<F> {
    /// Operands of OR.
    pub(crate) fn disjunction(
        &self,
        looks: &[Look<'_>],
        at: usize,
    ) -> Result<(Operand, usize), ParseFault>
        requires { Nests self.now.room (F.pre self.now.expr) (F.post self.now.expr) }
        ensures { ReadsAt looks.now at result (rule.disjunction self.now.room) }
    {
        chain(
            self.alloc,
            self.room,
            Level::Or,
            |looks, at| self.conjunction(looks, at),
            looks,
            at,
        )
    }

    /// Operands of AND.
    fn conjunction(&self, looks: &[Look<'_>], at: usize) -> Result<(Operand, usize), ParseFault>
        requires { Nests self.now.room (F.pre self.now.expr) (F.post self.now.expr) }
        ensures { ReadsAt looks.now at result (rule.conjunction self.now.room) }
    {
        chain(
            self.alloc,
            self.room,
            Level::And,
            |looks, at| self.negation(looks, at),
            looks,
            at,
        )
    }

    /// NOT any number of times, and a test.
    fn negation(&self, looks: &[Look<'_>], at: usize) -> Result<(Operand, usize), ParseFault>
        requires { Nests self.now.room (F.pre self.now.expr) (F.post self.now.expr) }
        ensures { ReadsAt looks.now at result (rule.negation self.now.room) }
    {
        let (count, rest) = skip(looks, at, Mark::Not);
        let (test, behind) = self.condition(looks, rest)?;
        Ok((nots(self.alloc, count, test)?, behind))
    }

    /// Operands of `+` and `-`.
    pub(crate) fn sum(&self, looks: &[Look<'_>], at: usize) -> Result<(Operand, usize), ParseFault>
        requires { Nests self.now.room (F.pre self.now.expr) (F.post self.now.expr) }
        ensures { ReadsAt looks.now at result (rule.sum self.now.room) }
    {
        chain(
            self.alloc,
            self.room,
            Level::Sum,
            |looks, at| self.term(looks, at),
            looks,
            at,
        )
    }

    /// Operands of `*`, `/` and `%`.
    fn term(&self, looks: &[Look<'_>], at: usize) -> Result<(Operand, usize), ParseFault>
        requires { Nests self.now.room (F.pre self.now.expr) (F.post self.now.expr) }
        ensures { ReadsAt looks.now at result (rule.term self.now.room) }
    {
        chain(
            self.alloc,
            self.room,
            Level::Term,
            |looks, at| self.signed(looks, at),
            looks,
            at,
        )
    }

    /// Signs, and what they stand before.
    fn signed(&self, looks: &[Look<'_>], at: usize) -> Result<(Operand, usize), ParseFault>
        requires { Nests self.now.room (F.pre self.now.expr) (F.post self.now.expr) }
        ensures { ReadsAt looks.now at result (rule.signed self.now.room) }
    {
        let (count, rest) = skip(looks, at, Mark::Minus);
        let (operand, behind) = self.operand(looks, rest)?;
        Ok((negs(self.alloc, count, operand)?, behind))
    }
}

/// Operands of a level, and its operators between them.
fn chain<G: Fn(&[Look<'_>], usize) -> Result<(Operand, usize), ParseFault>>(
    alloc: Global,
    room: usize,
    level: Level,
    operand: G,
    looks: &[Look<'_>],
    at: usize,
) -> Result<(Operand, usize), ParseFault>
    requires { IsReader (rule.operand_of room level) (G.pre operand) (G.post operand) }
    ensures { ReadsAt looks.now at result (rule.level room level) }
{
    let (mut left, mut rest) = operand(looks, at)?;
    for _turn in 0..room {
        let Some((op, next)) = operator_at(level, looks, rest) else {
            return Ok((left, rest));
        };
        let (right, behind) = operand(looks, next)?;
        let both = binary(alloc, op, left, right)?;
        left = both;
        rest = behind;
    }
    Err(ParseFault::NotAQuery)
}
