//! Cells, read where they lie in the bytes of a block. No call takes memory.
#![tactic(auto)]

mod cell;
mod check;
mod content;
mod find;
mod front;
mod fronts;
mod heads;
mod iterators;
mod kind;
mod numbers;
mod places;
mod scalars;
mod tag;
mod times;
pub mod types;

pub use cell::Cell;
pub use content::Content;
pub use heads::{CellHead, head, only_payload, payload};
pub use iterators::{Cells, Fields};
pub use kind::Kind;
pub use numbers::{magnitude, var_uint};
pub use places::{BadCell, cell_at, check_cell};
