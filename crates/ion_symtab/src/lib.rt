//! Symbol tables of blocks: reading one, and looking up the number of a text and the text of a number.
#![tactic(auto)]

mod fault;
mod parts;
mod reading;
mod table;
mod texts;
mod values;

pub use fault::TabFault;
pub use reading::read;
pub use table::{SymTab, numbers_have_texts};
pub use values::value_of;
