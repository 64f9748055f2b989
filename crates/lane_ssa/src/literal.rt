ghost use Rattle.std.specs.Prelude.{◌≡◌};
ghost use Rattle.block_meaning.specs.Tables.{Table};
ghost use Rattle.program_meaning.specs.Programs.{IsConstant};
ghost use Rattle.snel_values.specs.View.{view};
ghost use Rattle.lane_base.specs.Registers.{seen};
ghost use Rattle.lane_base.specs.Shown.{value_under, IsLegal};

use lane_base::Look;
use snel_values::Value;

/// What a lane shows that holds the literal.
#[inline(always)]
pub(crate) fn look_of<'b>(value: &'b Value) -> Look<'b>
    requires { IsConstant (view value.now) }
    ensures value { (table : Table) → value_under table (seen result) ≡ view value.now }
    ensures legal { (table : Table) → IsLegal table (seen result) }
{
    match value {
        Value::Missing => Look::Missing,
        Value::Null => Look::Null,
        Value::Bool(truth) => Look::Bool(*truth),
        Value::Int(number) => Look::Int(*number as i64),
        Value::Time(micros) => Look::Time(*micros),
        Value::Text(text) => {
            text.know();
            Look::Text(text.as_str().as_bytes())
        }
        Value::List(_) | Value::Struct(_) => unreachable!(),
    }
}
