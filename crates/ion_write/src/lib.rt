//! Writing rows and blocks.
#![tactic(auto)]

mod blocks;
mod choosing;
mod clock;
mod heads;
mod mentions;
mod numbers;
mod place;
mod standing;
mod table;
mod texts;
mod times;
mod values;
mod weighing;
mod writing;

pub use blocks::block_of;
pub use choosing::table_of;
pub use standing::writable;
pub use table::Table;
pub use weighing::weight;
pub use writing::put_value;
