//! The types of cells, and the cells of one byte that are truth values (Ion 1.0, "Typed value formats").

/// A whole number that isn't negative.
pub const WHOLE: u8 = 2;

/// A negative number.
pub const NEGATIVE: u8 = 3;

/// A time.
pub const TIMESTAMP: u8 = 6;

/// A text by its number in the symbol table.
pub const SYMBOL: u8 = 7;

/// A text by its bytes.
pub const STRING: u8 = 8;

/// A list of cells.
pub const LIST: u8 = 11;

/// A struct of pairs.
pub const STRUCT: u8 = 13;

/// An annotated cell: a symbol table, and no cell of a value.
pub const ANNOTATION: u8 = 14;

/// The cell that is false.
pub const FALSE: u8 = 0x10;

/// The cell that is true.
pub const TRUE: u8 = 0x11;

/// The first byte of a struct with a pair at least, the length of whose content follows.
pub const STRUCT_IN_ORDER: u8 = 0xD1;
