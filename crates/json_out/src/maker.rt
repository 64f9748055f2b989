ghost use Rattle.std.specs.Prelude.{◌≡◌, [], ◌∷◌, ◌++◌, OnOk, OnErr, IfOk, IsTrue, ◌↔◌};
ghost use Rattle.answer_meaning.specs.Made.{Output};
ghost use Rattle.answer_meaning.specs.Lines.{value_text, line_text};
ghost use Rattle.ion_cells.specs.Shown.{Fits, shown};
ghost use Rattle.json_out.specs.Begun.{begun, pair_text, pair_if_any, pair_text_if_any};
ghost use Rattle.json_out.specs.NoMissing.{HasNoMissing, IsMissingAtMostAtTop};
ghost use Rattle.block_meaning.specs.Stored.{HasTimesInRange};
ghost use Rattle.snel_values.specs.View.{view};

use crate::checks::has_text;
use crate::owned::put_owned;
use crate::texts::put_quoted;
use crate::values::put_value;
use ion_cells::Cell;
use ion_symtab::SymTab;
use snel_values::{Bytes, OutOfMemory, Value};
use std::alloc::Global;
use std::marker::Model;

/// A line that is made pair by pair, seen as its bytes so far, at first `{`. For want of memory a put drops all bytes.
#[derive(Drop)]
pub struct LineMaker {
    line: Bytes,
}

impl Model for LineMaker {
    ghost use Rattle.std.specs.Prelude.{List, ℕ};

    ghost Value = { List ℕ };

    ghost view = { λ m. m.line };
}

/// Adds what stands before the value of a pair: a comma where a pair stands before, the name and a colon.
fn begin_pair(line: &mut Bytes, name: &str) -> Result<(), OutOfMemory>
    ensures { OnOk result (line.new ≡ line.old ++ pair_text line.old name.now []) }
{
    if line.len() > 1 {
        line.push_all(b",")?;
    }
    put_quoted(line, name)?;
    line.push_all(b":")
}

/// Adds a pair of the name and the value of the cell.
fn put_cell_pair(
    line: &mut Bytes,
    name: &str,
    table: &SymTab<'_>,
    cell: &Cell<'_>,
) -> Result<(), OutOfMemory>
    requires { Fits table.now cell.now }
    ensures { OnOk result (line.new ≡ line.old
        ++ pair_text line.old name.now (value_text (shown table.now cell.now))) }
{
    begin_pair(line, name)?;
    put_value(line, table, cell)
}

/// Adds a pair of the name and the value, which isn't MISSING.
fn put_value_pair(line: &mut Bytes, name: &str, value: &Value) -> Result<(), OutOfMemory>
    requires times { HasTimesInRange (view value.now) }
    requires no_missing { HasNoMissing (view value.now) }
    ensures { OnOk result (line.new ≡ line.old
        ++ pair_text line.old name.now (value_text (view value.now))) }
{
    begin_pair(line, name)?;
    put_owned(line, value)
}

impl LineMaker {
    /// A line of no pairs.
    pub fn new(alloc: Global) -> Result<LineMaker, OutOfMemory>
        ensures { IfOk result (λ m. m ≡ begun []) }
    {
        let mut line = Bytes::new(alloc);
        line.push_all(b"{")?;
        Ok(LineMaker { line })
    }

    /// Adds a pair of the name and the value of the cell, behind a comma where a pair stands before.
    pub fn put_cell(
        &mut self,
        name: &str,
        table: &SymTab<'_>,
        cell: &Cell<'_>,
    ) -> Result<(), OutOfMemory>
        requires { Fits table.now cell.now }
        ensures ok { OnOk result (self.new ≡ self.old
            ++ pair_text self.old name.now (value_text (shown table.now cell.now))) }
        ensures pairs { (output : Output) → self.old ≡ begun output
            → OnOk result (self.new ≡ begun (output ++ (name.now, shown table.now cell.now) ∷ [])) }
        ensures err { OnErr result (self.new ≡ []) }
    {
        match put_cell_pair(&mut self.line, name, table, cell) {
            Ok(()) => Ok(()),
            Err(e) => {
                self.line.clear();
                Err(e)
            }
        }
    }

    /// Whether `put_value` takes the value: each time in it lies from the year 1 to the year 9999, and MISSING stands at
    /// most at its top.
    pub fn takes(value: &Value) -> bool
        ensures { IsTrue result ↔ HasTimesInRange (view value.now)
            × IsMissingAtMostAtTop (view value.now) }
    {
        match value {
            Value::Missing => true,
            _ => has_text(value),
        }
    }

    /// Adds a pair of the name and the value, which it takes, behind a comma where a pair stands before; with MISSING it
    /// adds nothing.
    pub fn put_value(&mut self, name: &str, value: &Value) -> Result<(), OutOfMemory>
        requires times { HasTimesInRange (view value.now) }
        requires missing { IsMissingAtMostAtTop (view value.now) }
        ensures ok { OnOk result (self.new ≡ self.old
            ++ pair_text_if_any self.old name.now (view value.now)) }
        ensures pairs { (output : Output) → self.old ≡ begun output
            → OnOk result (self.new ≡ begun (output ++ pair_if_any name.now (view value.now))) }
        ensures err { OnErr result (self.new ≡ []) }
    {
        if let Value::Missing = value {
            return Ok(());
        }
        match put_value_pair(&mut self.line, name, value) {
            Ok(()) => Ok(()),
            Err(e) => {
                self.line.clear();
                Err(e)
            }
        }
    }

    /// The line, with its end.
    pub fn finish(self) -> Result<Bytes, OutOfMemory>
        ensures ok { IfOk result (λ line. line ≡ self ++ 125 ∷ 10 ∷ []) }
        ensures pairs { (output : Output) → self ≡ begun output
            → IfOk result (λ line. line ≡ line_text output) }
    {
        let mut line = self.line;
        line.push_all(b"}\n")?;
        Ok(line)
    }
}
