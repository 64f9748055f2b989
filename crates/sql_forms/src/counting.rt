ghost use Rattle.std.specs.Prelude.{◌≡◌};
ghost use Rattle.query_meaning.specs.Reading.{times};
ghost use Rattle.tree_meaning.specs.Tree as tree;

use query_tree::{Expr, Operand};

/// How many minus signs stand at the front, counted up to `most`, and what follows them.
pub fn signs(of: &Operand, most: usize) -> (usize, &Operand)
    ensures { of.now ≡ times tree.neg result.0 result.1.now }
{
    let mut below = of;
    for count in 0..most {
        let Expr::Neg(inner) = below.get() else {
            return (count, below);
        };
        below = inner;
    }
    (most, below)
}

/// How many NOTs stand at the front, counted up to `most`, and what follows them.
pub fn denials(of: &Operand, most: usize) -> (usize, &Operand)
    ensures { of.now ≡ times tree.no result.0 result.1.now }
{
    let mut below = of;
    for count in 0..most {
        let Expr::Not(inner) = below.get() else {
            return (count, below);
        };
        below = inner;
    }
    (most, below)
}
