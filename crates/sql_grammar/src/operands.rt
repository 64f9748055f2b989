ghost use Rattle.std.specs.Prelude.{◌≡◌, IfOk};
ghost use Rattle.value_meaning.specs.Val.{text};
ghost use Rattle.tree_meaning.specs.Tree as tree;
ghost use Rattle.query_meaning.specs.Reading as spec;
ghost use Rattle.query_meaning.specs.Tokens.{undoubled};
ghost use Rattle.query_tree.specs.View.{arm_view};
ghost use Rattle.sql_grammar.specs.PathForms.{path_behind};
ghost use Rattle.sql_grammar.specs.Rules as rule;
ghost use Rattle.sql_words.specs.ReadsAt.{ReadsAs, ReadsAt};
ghost use Rattle.sql_grammar.specs.Nests.{Nests};

use crate::calls::made;
use crate::grammar::Grammar;
use crate::heads::{head_at, match_of, rows_at};
use crate::paths::path;
use crate::tails::{cast_end, match_end};
use query_meaning::{FunctionWord, Mark};
use query_tree::{Arm, Arms, Expr, Operand};
use snel_values::{OutOfMemory, Text, Value};
use sql_forms::{choice, literal};
use sql_words::{Look, ParseFault, after, expect, function_word, literal_of, token, undoubled};
use std::alloc::Global;
use tree_meaning::{AggName, How};

impl<F: Fn(Global, usize, &[Look<'_>], usize) -> Result<(Operand, usize), ParseFault>> Grammar<F> {
    /// What stands for itself.
    #[tactic(auto, unfolding(query_meaning::specs::Reading::prim_by))]
    pub(crate) fn operand(
        &self,
        looks: &[Look<'_>],
        at: usize,
    ) -> Result<(Operand, usize), ParseFault>
        requires { Nests self.now.room (F.pre self.now.expr) (F.post self.now.expr) }
        ensures { ReadsAt looks.now at result (rule.operand self.now.room) }
    {
        match token(looks, at) {
            Some(Look::Number(number)) => {
                let number = literal(self.alloc, Value::Int(i128::from(number)))?;
                Ok((number, at + 1))
            }
            Some(Look::Str(inner)) => Ok((text_literal(self.alloc, inner)?, at + 1)),
            Some(Look::Moment(time)) => Ok((literal(self.alloc, Value::Time(time))?, at + 1)),
            Some(Look::Word(name)) => self.word(name, looks, at + 1),
            Some(Look::Quoted(inner)) => quoted_path(self.alloc, self.room, inner, looks, at + 1),
            Some(Look::Mark(mark)) => self.marked(mark, looks, at + 1),
            Some(Look::NoToken) | None => Err(ParseFault::NotAQuery),
        }
    }

    /// What begins with this mark, which stood before the place.
    #[tactic(auto, unfolding(query_meaning::specs::Reading::marked_by))]
    fn marked(
        &self,
        mark: Mark,
        looks: &[Look<'_>],
        at: usize,
    ) -> Result<(Operand, usize), ParseFault>
        requires { Nests self.now.room (F.pre self.now.expr) (F.post self.now.expr) }
        ensures { ReadsAt looks.now at result (rule.marked self.now.room mark) }
    {
        match mark {
            Mark::Open => self.parens(looks, at),
            Mark::Case => self.case(looks, at),
            Mark::Cast => self.cast(looks, at),
            _ => match literal_of(mark) {
                Some(value) => Ok((literal(self.alloc, value)?, at)),
                None => Err(ParseFault::NotAQuery),
            },
        }
    }

    /// What begins with this word, which stood before the place: a call, or a path.
    #[tactic(auto, unfolding(query_meaning::specs::Reading::word_by))]
    fn word(
        &self,
        name: &str,
        looks: &[Look<'_>],
        at: usize,
    ) -> Result<(Operand, usize), ParseFault>
        requires { Nests self.now.room (F.pre self.now.expr) (F.post self.now.expr) }
        ensures { ReadsAt looks.now at result (rule.word self.now.room name.now) }
    {
        let Some(rest) = after(looks, at, Mark::Open) else {
            let first = Text::of(self.alloc, name)?;
            return path(self.alloc, self.room, first, looks, at);
        };
        match function_word(name) {
            Some(function) => self.call(function, looks, rest),
            None => Err(ParseFault::NotAQuery),
        }
    }

    /// What follows the word of a call and `(`.
    #[tactic(auto, unfolding(query_meaning::specs::Reading::call_by))]
    fn call(
        &self,
        function: FunctionWord,
        looks: &[Look<'_>],
        at: usize,
    ) -> Result<(Operand, usize), ParseFault>
        requires { Nests self.now.room (F.pre self.now.expr) (F.post self.now.expr) }
        ensures { ReadsAt looks.now at result (rule.call self.now.room function) }
    {
        if let Some(rest) = rows_at(function, looks, at) {
            let behind = expect(looks, rest, Mark::Close)?;
            let name = AggName::CountAll;
            let count = Operand::new(self.alloc, Expr::Agg { name, of: None })?;
            return Ok((count, behind));
        }
        match match_of(function) {
            Some(how) => self.matched(how, looks, at),
            None => self.args(function, looks, at),
        }
    }

    /// What follows STARTS_WITH, ENDS_WITH or CONTAINS and `(`.
    #[tactic(auto, unfolding(query_meaning::specs::Reading::match_by))]
    fn matched(
        &self,
        how: How,
        looks: &[Look<'_>],
        at: usize,
    ) -> Result<(Operand, usize), ParseFault>
        requires { Nests self.now.room (F.pre self.now.expr) (F.post self.now.expr) }
        ensures { ReadsAt looks.now at result (rule.matched self.now.room how) }
    {
        let (of, rest) = self.expr(looks, at)?;
        match_end(self.alloc, how, of, looks, rest)
    }

    /// What follows the word of another call and `(`.
    #[tactic(auto, unfolding(query_meaning::specs::Reading::args_by))]
    fn args(
        &self,
        function: FunctionWord,
        looks: &[Look<'_>],
        at: usize,
    ) -> Result<(Operand, usize), ParseFault>
        requires { Nests self.now.room (F.pre self.now.expr) (F.post self.now.expr) }
        ensures { ReadsAt looks.now at result (rule.args self.now.room function) }
    {
        let (head, rest) = head_at(function, looks, at)?;
        let (list, rest) = self.list(looks, rest)?;
        let call = made(self.alloc, head, list)?;
        let behind = expect(looks, rest, Mark::Close)?;
        Ok((call, behind))
    }

    /// What follows `(`.
    #[tactic(auto, unfolding(query_meaning::specs::Reading::parens_by))]
    fn parens(&self, looks: &[Look<'_>], at: usize) -> Result<(Operand, usize), ParseFault>
        requires { Nests self.now.room (F.pre self.now.expr) (F.post self.now.expr) }
        ensures { ReadsAt looks.now at result (rule.parens self.now.room) }
    {
        let (inner, rest) = self.expr(looks, at)?;
        let behind = expect(looks, rest, Mark::Close)?;
        Ok((inner, behind))
    }

    /// What follows CAST.
    #[tactic(auto, unfolding(query_meaning::specs::Reading::cast_by))]
    fn cast(&self, looks: &[Look<'_>], at: usize) -> Result<(Operand, usize), ParseFault>
        requires { Nests self.now.room (F.pre self.now.expr) (F.post self.now.expr) }
        ensures { ReadsAt looks.now at result (rule.cast self.now.room) }
    {
        let rest = expect(looks, at, Mark::Open)?;
        let (of, rest) = self.expr(looks, rest)?;
        cast_end(self.alloc, of, looks, rest)
    }

    /// What follows CASE.
    #[tactic(auto, unfolding(query_meaning::specs::Reading::case_by))]
    fn case(&self, looks: &[Look<'_>], at: usize) -> Result<(Operand, usize), ParseFault>
        requires { Nests self.now.room (F.pre self.now.expr) (F.post self.now.expr) }
        ensures { ReadsAt looks.now at result (rule.case self.now.room) }
    {
        let (arms, rest) = self.whens(looks, at)?;
        let (other, behind) = self.other(looks, rest)?;
        Ok((choice(self.alloc, arms, other)?, behind))
    }

    /// The arms of a CASE.
    fn whens(&self, looks: &[Look<'_>], at: usize) -> Result<(Arms, usize), ParseFault>
        requires { Nests self.now.room (F.pre self.now.expr) (F.post self.now.expr) }
        ensures { ReadsAs tree.arms looks.now at result (rule.whens self.now.room) }
    {
        let mut all = Arms::new(self.alloc);
        let mut rest = at;
        for _turn in 0..self.room {
            let (arm, behind) = self.arm(looks, rest)?;
            all.push(arm)?;
            let Some(_) = after(looks, behind, Mark::When) else {
                return Ok((all, behind));
            };
            rest = behind;
        }
        Err(ParseFault::NotAQuery)
    }

    /// WHEN, a test, THEN and a value.
    fn arm(&self, looks: &[Look<'_>], at: usize) -> Result<(Arm, usize), ParseFault>
        requires { Nests self.now.room (F.pre self.now.expr) (F.post self.now.expr) }
        ensures { ReadsAs arm_view looks.now at result (rule.arm (spec.expr_at self.now.room)) }
    {
        let when = expect(looks, at, Mark::When)?;
        let (test, rest) = self.expr(looks, when)?;
        let then = expect(looks, rest, Mark::Then)?;
        let (value, behind) = self.expr(looks, then)?;
        Ok((Arm { test, value }, behind))
    }

    /// ELSE and its value or neither, which stands for NULL, and END.
    #[tactic(auto, unfolding(query_meaning::specs::Reading::else_by))]
    fn other(&self, looks: &[Look<'_>], at: usize) -> Result<(Operand, usize), ParseFault>
        requires { Nests self.now.room (F.pre self.now.expr) (F.post self.now.expr) }
        ensures { ReadsAt looks.now at result (rule.other self.now.room) }
    {
        match after(looks, at, Mark::Else) {
            None => {
                let behind = expect(looks, at, Mark::End)?;
                Ok((literal(self.alloc, Value::Null)?, behind))
            }
            Some(rest) => {
                let (other, rest) = self.expr(looks, rest)?;
                let behind = expect(looks, rest, Mark::End)?;
                Ok((other, behind))
            }
        }
    }
}

/// The literal of a text, which stands between quotes here.
fn text_literal(alloc: Global, inner: &str) -> Result<Operand, OutOfMemory>
    ensures { IfOk result (λ e. e ≡ tree.lit (text (undoubled 39 inner.now))) }
{
    let text = undoubled(alloc, inner, b'\'')?;
    literal(alloc, Value::Text(text))
}

/// The path whose first name stands between quotes here, before the place.
fn quoted_path(
    alloc: Global,
    room: usize,
    inner: &str,
    looks: &[Look<'_>],
    at: usize,
) -> Result<(Operand, usize), ParseFault>
    ensures { ReadsAt looks.now at result (path_behind (undoubled 34 inner.now) room) }
{
    let first = undoubled(alloc, inner, b'"')?;
    path(alloc, room, first, looks, at)
}
