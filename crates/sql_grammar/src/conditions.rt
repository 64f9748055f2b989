ghost use Rattle.sql_words.specs.ReadsAt.{ReadsAt};
ghost use Rattle.sql_grammar.specs.Nests.{Nests};
ghost use Rattle.sql_grammar.specs.Rules as rule;

use crate::grammar::Grammar;
use crate::tails::{is_at, like_at};
use query_meaning::Mark;
use query_tree::Operand;
use sql_forms::{between, binary, member, not};
use sql_words::{Look, ParseFault, after, compare_at, expect, is_test};
use std::alloc::Global;
use tree_meaning::BinOp;

impl<F: Fn(Global, usize, &[Look<'_>], usize) -> Result<(Operand, usize), ParseFault>> Grammar<F> {
    /// A sum, or a test of one.
    #[tactic(auto, unfolding(query_meaning::specs::Reading::pred_by))]
    pub(crate) fn condition(
        &self,
        looks: &[Look<'_>],
        at: usize,
    ) -> Result<(Operand, usize), ParseFault>
        requires { Nests self.now.room (F.pre self.now.expr) (F.post self.now.expr) }
        ensures { ReadsAt looks.now at result (rule.condition self.now.room) }
    {
        let (left, rest) = self.sum(looks, at)?;
        self.tested(left, looks, rest)
    }

    /// What follows the first sum of a test.
    #[tactic(auto, unfolding(query_meaning::specs::Reading::tested_by))]
    fn tested(
        &self,
        of: Operand,
        looks: &[Look<'_>],
        at: usize,
    ) -> Result<(Operand, usize), ParseFault>
        requires { Nests self.now.room (F.pre self.now.expr) (F.post self.now.expr) }
        ensures { ReadsAt looks.now at result (rule.tested self.now.room of) }
    {
        if let Some((op, rest)) = compare_at(looks, at) {
            return self.compared(op, of, looks, rest);
        }
        if let Some(rest) = after(looks, at, Mark::Is) {
            return is_at(self.alloc, of, looks, rest);
        }
        if let Some(rest) = after(looks, at, Mark::Not) {
            return self.denied(of, looks, rest);
        }
        if is_test(looks, at) {
            return self.test(of, looks, at);
        }
        Ok((of, at))
    }

    /// The right operand of a comparison.
    fn compared(
        &self,
        op: BinOp,
        of: Operand,
        looks: &[Look<'_>],
        at: usize,
    ) -> Result<(Operand, usize), ParseFault>
        requires { Nests self.now.room (F.pre self.now.expr) (F.post self.now.expr) }
        ensures { ReadsAt looks.now at result (rule.compared self.now.room op of) }
    {
        let (right, behind) = self.sum(looks, at)?;
        Ok((binary(self.alloc, op, of, right)?, behind))
    }

    /// A test behind NOT.
    fn denied(
        &self,
        of: Operand,
        looks: &[Look<'_>],
        at: usize,
    ) -> Result<(Operand, usize), ParseFault>
        requires { Nests self.now.room (F.pre self.now.expr) (F.post self.now.expr) }
        ensures { ReadsAt looks.now at result (rule.denied self.now.room of) }
    {
        let (test, behind) = self.test(of, looks, at)?;
        Ok((not(self.alloc, test)?, behind))
    }

    /// IN, BETWEEN, LIKE or ILIKE, and what follows it.
    #[tactic(auto, unfolding(query_meaning::specs::Reading::test_by))]
    fn test(
        &self,
        of: Operand,
        looks: &[Look<'_>],
        at: usize,
    ) -> Result<(Operand, usize), ParseFault>
        requires { Nests self.now.room (F.pre self.now.expr) (F.post self.now.expr) }
        ensures { ReadsAt looks.now at result (rule.test self.now.room of) }
    {
        if let Some(rest) = after(looks, at, Mark::In) {
            return self.among(of, looks, rest);
        }
        if let Some(rest) = after(looks, at, Mark::Between) {
            return self.range(of, looks, rest);
        }
        like_at(self.alloc, of, looks, at)
    }

    /// What follows BETWEEN.
    #[tactic(auto, unfolding(query_meaning::specs::Reading::range_by))]
    fn range(
        &self,
        of: Operand,
        looks: &[Look<'_>],
        at: usize,
    ) -> Result<(Operand, usize), ParseFault>
        requires { Nests self.now.room (F.pre self.now.expr) (F.post self.now.expr) }
        ensures { ReadsAt looks.now at result (rule.range self.now.room of) }
    {
        let (low, rest) = self.sum(looks, at)?;
        let rest = expect(looks, rest, Mark::And)?;
        let (high, behind) = self.sum(looks, rest)?;
        Ok((between(self.alloc, of, low, high)?, behind))
    }

    /// What follows IN.
    #[tactic(auto, unfolding(query_meaning::specs::Reading::among_by))]
    fn among(
        &self,
        of: Operand,
        looks: &[Look<'_>],
        at: usize,
    ) -> Result<(Operand, usize), ParseFault>
        requires { Nests self.now.room (F.pre self.now.expr) (F.post self.now.expr) }
        ensures { ReadsAt looks.now at result (rule.among self.now.room of) }
    {
        let rest = expect(looks, at, Mark::Open)?;
        let (list, rest) = self.list(looks, rest)?;
        let behind = expect(looks, rest, Mark::Close)?;
        Ok((member(self.alloc, of, list)?, behind))
    }
}
