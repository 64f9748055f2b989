ghost use Rattle.std.specs.Prelude.{◌≡◌, [], ◌∷◌, ◌++◌, map, OnOk};
ghost use Rattle.print_meaning.specs.Pieces.{in_quotes};
ghost use Rattle.print_meaning.specs.Texts as texts;
ghost use Rattle.query_tree.specs.View.{step_view};

use crate::query_text::{QueryText, put, put_digits, put_name};
use snel_values::{OutOfMemory, Step, Steps};

/// Adds the path from the row of this name.
pub(crate) fn put_path(text: &mut QueryText, row: &str, steps: &Steps) -> Result<(), OutOfMemory>
    ensures { OnOk result (text.new ≡ text.old ++
        (in_quotes 34 row.now ++ texts.steps_text (map step_view steps.now))) }
{
    put_name(text, row)?;
    put_steps(text, steps)
}

/// Adds the steps.
fn put_steps(text: &mut QueryText, steps: &Steps) -> Result<(), OutOfMemory>
    ensures { OnOk result (text.new ≡ text.old ++ texts.steps_text (map step_view steps.now)) }
{
    for at in 0..steps.len() {
        let Some(step) = steps.get(at) else {
            unreachable!()
        };
        put_step(text, step)?;
    }
    Ok(())
}

/// Adds the step: a dot and a name, or a place in brackets.
#[tactic(auto, using(crate::proofs::StepTexts::name_text, crate::proofs::StepTexts::at_text))]
fn put_step(text: &mut QueryText, step: &Step) -> Result<(), OutOfMemory>
    ensures { OnOk result (text.new ≡ text.old ++ texts.steps_text (step_view step.now ∷ [])) }
{
    match step {
        Step::Name(name) => {
            put(text, ".")?;
            put_name(text, name.as_str())
        }
        Step::At(at) => {
            put(text, "[")?;
            put_digits(text, u128::from(*at))?;
            put(text, "]")
        }
    }
}
