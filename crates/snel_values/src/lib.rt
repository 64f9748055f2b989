//! Values, their order, and the small types that trees of queries and answers are made of.
//!
//! Each type of this crate is seen by contracts as a pure value of `value_meaning`:
//! a [`Value`] by `view`, the others as lists.
#![tactic(auto)]

mod bytes;
mod items;
mod made;
mod memory;
mod ordering;
mod pairs;
mod steps;
mod text;
mod value;
mod words;

pub use bytes::Bytes;
pub use items::Items;
pub use made::{MadeRow, MadeRows};
pub use memory::OutOfMemory;
pub use ordering::{order, same};
pub use pairs::Pairs;
pub use steps::{Step, Steps};
pub use text::Text;
pub use value::Value;
pub use words::Words;
