ghost use Rattle.std.specs.Prelude.{◌≡◌, IfOk};
ghost use Rattle.query_tree.specs.View.{view, arm_view};

use crate::operands::{arm, item};
use query_tree::{Arm, Arms, Expr, Exprs, Operand};
use snel_values::{OutOfMemory, Step, Steps};
use std::alloc::Global;

/// An equal expression.
#[cycle(copy)]
pub fn copy_expr(alloc: Global, expr: &Operand) -> Result<Operand, OutOfMemory>
    ensures { IfOk result (λ copy. copy ≡ expr.now) }
{
    copy_node(alloc, expr.get())
}

#[cycle(copy)]
fn copy_node(alloc: Global, expr: &Expr) -> Result<Operand, OutOfMemory>
    ensures { IfOk result (λ copy. copy ≡ view expr.now) }
{
    match expr {
        Expr::Lit(value) => Operand::new(alloc, Expr::Lit(value.copy(alloc)?)),
        Expr::Path { row, steps } => {
            let steps = copy_steps(alloc, steps)?;
            Operand::new(alloc, Expr::Path { row: *row, steps })
        }
        Expr::Neg(of) => Operand::new(alloc, Expr::Neg(copy_expr(alloc, of)?)),
        Expr::Not(of) => Operand::new(alloc, Expr::Not(copy_expr(alloc, of)?)),
        Expr::Bin { op, left, right } => {
            let left = copy_expr(alloc, left)?;
            let right = copy_expr(alloc, right)?;
            Operand::new(
                alloc,
                Expr::Bin {
                    op: *op,
                    left,
                    right,
                },
            )
        }
        Expr::Is { what, of } => {
            let of = copy_expr(alloc, of)?;
            Operand::new(alloc, Expr::Is { what: *what, of })
        }
        Expr::In { of, list } => {
            let of = copy_expr(alloc, of)?;
            let list = copy_list(alloc, list)?;
            Operand::new(alloc, Expr::In { of, list })
        }
        Expr::Between { of, low, high } => {
            let of = copy_expr(alloc, of)?;
            let low = copy_expr(alloc, low)?;
            let high = copy_expr(alloc, high)?;
            Operand::new(alloc, Expr::Between { of, low, high })
        }
        Expr::Match { how, of, text } => {
            let of = copy_expr(alloc, of)?;
            let text = text.copy(alloc)?;
            Operand::new(
                alloc,
                Expr::Match {
                    how: *how,
                    of,
                    text,
                },
            )
        }
        Expr::Case { arms, other } => {
            let arms = copy_arms(alloc, arms)?;
            let other = copy_expr(alloc, other)?;
            Operand::new(alloc, Expr::Case { arms, other })
        }
        Expr::Cast { of, to } => {
            let of = copy_expr(alloc, of)?;
            Operand::new(alloc, Expr::Cast { of, to: *to })
        }
        Expr::Call { name, args } => {
            let args = copy_list(alloc, args)?;
            Operand::new(alloc, Expr::Call { name: *name, args })
        }
        Expr::Trunc { part, of } => {
            let of = copy_expr(alloc, of)?;
            Operand::new(alloc, Expr::Trunc { part: *part, of })
        }
        Expr::Extract { part, of } => {
            let of = copy_expr(alloc, of)?;
            Operand::new(alloc, Expr::Extract { part: *part, of })
        }
        Expr::Shift { part, count, of } => {
            let count = copy_expr(alloc, count)?;
            let of = copy_expr(alloc, of)?;
            Operand::new(
                alloc,
                Expr::Shift {
                    part: *part,
                    count,
                    of,
                },
            )
        }
        Expr::Agg { name, of: None } => Operand::new(
            alloc,
            Expr::Agg {
                name: *name,
                of: None,
            },
        ),
        Expr::Agg { name, of: Some(of) } => {
            let of = Some(copy_expr(alloc, of)?);
            Operand::new(alloc, Expr::Agg { name: *name, of })
        }
    }
}

/// Equal expressions.
#[cycle(copy)]
fn copy_list(alloc: Global, list: &Exprs) -> Result<Exprs, OutOfMemory>
    ensures { IfOk result (λ copy. copy ≡ list.now) }
{
    let mut all = Exprs::new(alloc);
    for at in 0..list.len() {
        all.push(copy_expr(alloc, item(list, at))?)?;
    }
    Ok(all)
}

/// Equal arms.
#[cycle(copy)]
fn copy_arms(alloc: Global, arms: &Arms) -> Result<Arms, OutOfMemory>
    ensures { IfOk result (λ copy. copy ≡ arms.now) }
{
    let mut all = Arms::new(alloc);
    for at in 0..arms.len() {
        all.push(copy_arm(alloc, arm(arms, at))?)?;
    }
    Ok(all)
}

/// An equal arm.
#[cycle(copy)]
fn copy_arm(alloc: Global, arm: &Arm) -> Result<Arm, OutOfMemory>
    ensures { IfOk result (λ copy. arm_view copy ≡ arm_view arm.now) }
{
    Ok(Arm {
        test: copy_expr(alloc, &arm.test)?,
        value: copy_expr(alloc, &arm.value)?,
    })
}

/// Equal steps.
fn copy_steps(alloc: Global, steps: &Steps) -> Result<Steps, OutOfMemory>
    ensures { IfOk result (λ copy. copy ≡ steps.now) }
{
    let mut all = Steps::new(alloc);
    for at in 0..steps.len() {
        let Some(step) = steps.get(at) else {
            unreachable!()
        };
        all.push(copy_step(alloc, step)?)?;
    }
    Ok(all)
}

/// An equal step.
fn copy_step(alloc: Global, step: &Step) -> Result<Step, OutOfMemory>
    ensures { IfOk result (λ copy. copy ≡ step.now) }
{
    match step {
        Step::Name(name) => Ok(Step::Name(name.copy(alloc)?)),
        Step::At(at) => Ok(Step::At(*at)),
    }
}
