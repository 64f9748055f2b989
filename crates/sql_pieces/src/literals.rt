ghost use Rattle.std.specs.Prelude.{◌≡◌, [], ◌∷◌, ◌++◌, unsigned_abs, OnOk};
ghost use Rattle.time_meaning.specs.Moments.{IsTime};
ghost use Rattle.time_meaning.specs.Printed.{time_text};
ghost use Rattle.tree_meaning.specs.WellFormed.{IsLiteral};
ghost use Rattle.print_meaning.specs.Texts.{literal_text};
ghost use Rattle.snel_values.specs.View.{view};

use crate::pieces::{put, put_digits};
use crate::quotes::put_string;
use snel_values::{Bytes, OutOfMemory, Value};
use time_print::put_time;

/// Adds the literal: NULL, MISSING, TRUE, FALSE, decimal digits, a string or a time between backticks. A literal of a
/// query is no list, no struct and no negative number. For want of memory some of it may stand behind the bytes.
#[tactic(auto, using(crate::proofs::LiteralTexts::int_text, crate::proofs::LiteralTexts::moment_text, crate::proofs::LiteralTexts::string_text), unfolding(print_meaning::specs::Texts::literal_text, print_meaning::specs::Pieces::spelling))]
pub fn put_literal(text: &mut Bytes, value: &Value) -> Result<(), OutOfMemory>
    requires { IsLiteral (view value.now) }
    ensures { OnOk result (text.new ≡ text.old ++ literal_text (view value.now)) }
{
    match value {
        Value::Missing => put(text, "MISSING"),
        Value::Null => put(text, "NULL"),
        Value::Bool(true) => put(text, "TRUE"),
        Value::Bool(false) => put(text, "FALSE"),
        Value::Int(number) => put_digits(text, number.unsigned_abs()),
        Value::Time(micros) => put_moment(text, *micros),
        Value::Text(string) => put_string(text, string.as_str()),
        Value::List(_) => unreachable!(),
        Value::Struct(_) => unreachable!(),
    }
}

/// Adds the text of the time between backticks.
fn put_moment(text: &mut Bytes, micros: i64) -> Result<(), OutOfMemory>
    requires { IsTime micros }
    ensures { OnOk result (text.new ≡ text.old ++ 96 ∷ (time_text micros ++ 96 ∷ [])) }
{
    put(text, "`")?;
    put_time(text, micros)?;
    put(text, "`")
}
