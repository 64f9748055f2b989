use crate::iterators::{Cells, Fields};

/// What a cell denotes, by its kind. The text of a symbol is its text in the symbol table.
#[derive(Drop)]
pub enum Content<'b> {
    Null,
    Bool(bool),
    Int(i64),
    /// Microseconds from 1970-01-01T00:00:00Z on.
    Time(i64),
    /// A text's number in the symbol table.
    Symbol(u32),
    Text(&'b str),
    /// The cells of a list, in order.
    List(Cells<'b>),
    /// The pairs of a struct, a label and a cell each, in order.
    Struct(Fields<'b>),
}
