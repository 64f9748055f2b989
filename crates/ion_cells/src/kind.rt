/// What kind of value a cell denotes. A text is of the kind `Symbol` where its number in the symbol table stands in the
/// cell, and of the kind `Text` where its bytes do.
#[derive(Clone, Copy, Debug, PartialEq, Eq)]
pub enum Kind {
    Null,
    Bool,
    Int,
    Time,
    Symbol,
    Text,
    List,
    Struct,
}
