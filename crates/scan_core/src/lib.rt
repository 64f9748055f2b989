//! A scan that several workers share, as a pure machine: a state, its events, and what each event tells.
//!
//! The blocks of a batch are handed out in the order of their numbers. Each seat has a view: what it claimed, what it
//! reported, and what it has seen. `Kept` of `specs/Board.antt` says what every state keeps, and the clauses of
//! `ScanState::new` say it of every list of events.
#![tactic(auto)]

mod event;
mod memory;
mod state;
mod steps;
mod view;
mod views;

pub use event::{ScanEvent, StepFault, Told};
pub use memory::OutOfMemory;
pub use state::ScanState;
pub use steps::step;
pub use view::{Claims, ScanView};
pub use views::ScanViews;
