//! Fields and items of sixteen values at once, and what their cells denote.
//!
//! From lanes that show structs or lists a kernel finds the cell of a pair or of an item in each lane of a mask; from such
//! cells a kernel loads the values that they denote under a symbol table. No kernel takes memory, and none can refuse.
#![tactic(auto)]

mod cells;
mod field;
mod find;
mod item;
mod kinds;
mod load;
mod masks;
mod scalars;
mod walks;

pub use cells::CellLanes;
pub use field::field16;
pub use find::find16;
pub use item::item16;
pub use kinds::{KindMasks, kinds16};
pub use load::{load16, texts16};
pub use scalars::{bools16, ints16, micros16};
