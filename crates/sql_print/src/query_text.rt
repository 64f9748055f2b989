//! The growing text of a query, and the pieces that are added to it.
ghost use Rattle.std.specs.Prelude.{◌≡◌, [], ◌++◌, decimal, OnOk};
ghost use Rattle.tree_meaning.specs.WellFormed.{IsLiteral};
ghost use Rattle.print_meaning.specs.Pieces.{in_quotes};
ghost use Rattle.print_meaning.specs.Texts.{literal_text};
ghost use Rattle.snel_values.specs.View.{view};

use snel_values::{Bytes, OutOfMemory, Value};
use std::alloc::Global;
use std::marker::Model;

/// The text of a query, or what of it is printed so far, seen as its bytes, which are UTF-8.
#[derive(Drop)]
pub struct QueryText {
    bytes: Bytes,
}

impl Model for QueryText {
    ghost use Rattle.std.specs.Prelude.{List, ℕ};
    ghost use Rattle.std.specs.Str.{IsUtf8};

    ghost Value = { List ℕ };

    ghost view = { λ t. t.bytes };

    ghost invariant = { λ t. IsUtf8 t.bytes };
}

impl QueryText {
    /// The text as it is lent, to be written or read again.
    pub fn as_str(&self) -> &str
        ensures { result.now ≡ self.now }
    {
        match str::from_utf8(self.bytes.as_slice()) {
            Ok(text) => text,
            Err(_) => unreachable!(),
        }
    }

    /// No text.
    pub(crate) fn new(alloc: Global) -> QueryText
        ensures { result ≡ [] }
    {
        QueryText {
            bytes: Bytes::new(alloc),
        }
    }
}

/// Adds the piece. Here and below, for want of memory what was printed may be lost.
pub(crate) fn put(text: &mut QueryText, piece: &str) -> Result<(), OutOfMemory>
    ensures { OnOk result (text.new ≡ text.old ++ piece.now) }
{
    sql_pieces::put(&mut text.bytes, piece)
}

/// Adds the number's decimal digits.
pub(crate) fn put_digits(text: &mut QueryText, number: u128) -> Result<(), OutOfMemory>
    ensures { OnOk result (text.new ≡ text.old ++ decimal number) }
{
    sql_pieces::put_digits(&mut text.bytes, number)
}

/// Adds the name between `"`, each `"` within it twice.
pub(crate) fn put_name(text: &mut QueryText, name: &str) -> Result<(), OutOfMemory>
    ensures { OnOk result (text.new ≡ text.old ++ in_quotes 34 name.now) }
{
    match sql_pieces::put_name(&mut text.bytes, name) {
        Ok(()) => Ok(()),
        Err(fault) => {
            text.bytes.clear();
            Err(fault)
        }
    }
}

/// Adds the text as a string, between `'`, each `'` within it twice.
pub(crate) fn put_string(text: &mut QueryText, string: &str) -> Result<(), OutOfMemory>
    ensures { OnOk result (text.new ≡ text.old ++ in_quotes 39 string.now) }
{
    match sql_pieces::put_string(&mut text.bytes, string) {
        Ok(()) => Ok(()),
        Err(fault) => {
            text.bytes.clear();
            Err(fault)
        }
    }
}

/// Adds the literal.
pub(crate) fn put_literal(text: &mut QueryText, value: &Value) -> Result<(), OutOfMemory>
    requires { IsLiteral (view value.now) }
    ensures { OnOk result (text.new ≡ text.old ++ literal_text (view value.now)) }
{
    value.know();
    match sql_pieces::put_literal(&mut text.bytes, value) {
        Ok(()) => Ok(()),
        Err(fault) => {
            text.bytes.clear();
            Err(fault)
        }
    }
}
