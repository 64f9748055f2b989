ghost use Rattle.std.specs.Prelude.{◌≡◌, IfOk};
ghost use Rattle.query_tree.specs.View.{view};

use crate::arms::Arms;
use crate::lists::Exprs;
use snel_values::{OutOfMemory, Steps, Text, Value};
use std::alloc::Global;
use std::marker::Model;
use tree_meaning::{AggName, BinOp, CastTo, Func, How, IsWhat, Part};

/// An expression of a query.
#[cycle(expr)]
#[derive(Drop)]
pub enum Expr {
    /// A literal.
    Lit(Value),
    /// A path from the row of this number, which is 0.
    Path {
        row: u8,
        steps: Steps,
    },
    /// `-of`
    Neg(Operand),
    /// `NOT of`
    Not(Operand),
    /// `left op right`
    Bin {
        op: BinOp,
        left: Operand,
        right: Operand,
    },
    /// `of IS what`
    Is {
        what: IsWhat,
        of: Operand,
    },
    /// `of IN (list)`
    In {
        of: Operand,
        list: Exprs,
    },
    /// `of BETWEEN low AND high`
    Between {
        of: Operand,
        low: Operand,
        high: Operand,
    },
    /// `of LIKE text`, `of ILIKE text`, `STARTS_WITH(of, text)`, `ENDS_WITH(of, text)` or `CONTAINS(of, text)`
    Match {
        how: How,
        of: Operand,
        text: Text,
    },
    /// `CASE WHEN .. THEN .. ELSE other END`
    Case {
        arms: Arms,
        other: Operand,
    },
    /// `CAST(of AS to)`
    Cast {
        of: Operand,
        to: CastTo,
    },
    /// A function of values.
    Call {
        name: Func,
        args: Exprs,
    },
    /// `DATE_TRUNC(part, of)`
    Trunc {
        part: Part,
        of: Operand,
    },
    /// `EXTRACT(part FROM of)`
    Extract {
        part: Part,
        of: Operand,
    },
    /// `DATE_ADD(part, count, of)`
    Shift {
        part: Part,
        count: Operand,
        of: Operand,
    },
    /// An aggregate, without an operand where it is COUNT(*).
    Agg {
        name: AggName,
        of: Option<Operand>,
    },
}

/// An expression within another, seen as its tree.
#[cycle(expr)]
#[derive(Drop)]
pub struct Operand {
    of: Box<Expr>,
}

impl Model for Operand {
    ghost use Rattle.tree_meaning.specs.Tree.{Ex};
    ghost use Rattle.tree_meaning.specs.Tree.{size as size_of};
    ghost use Rattle.tree_meaning.specs.Code.{coded_ex};

    ghost Value = { Ex };

    ghost coded = { coded_ex };

    ghost use Rattle.query_tree.specs.View.{view as view_of};

    ghost view = { λ b. view_of b.of.value };

    ghost size = { size_of };

    ghost use Rattle.query_tree.specs.Falls.{operand_falls};

    ghost size_decreases = { λ a h. operand_falls a.of.value };
}

impl Operand {
    /// The expression, in a place of its own.
    pub fn new(alloc: Global, of: Expr) -> Result<Operand, OutOfMemory>
        ensures { IfOk result (λ b. b ≡ view of) }
    {
        Ok(Operand {
            of: Box::new(alloc, of)?,
        })
    }

    /// The expression.
    pub fn get(&self) -> &Expr
        ensures { view result.now ≡ self.now }
    {
        &self.of
    }

    /// The expression, taken out of its place.
    pub fn take(self) -> Expr
        ensures { view result ≡ self }
    {
        Box::into_inner(self.of)
    }
}
