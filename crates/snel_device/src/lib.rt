//! The outside of the program: files, an input, sinks and a gate, as four traits with contracts,
//! and what stands behind them.
//!
//! - [`MemFiles`], [`MemInput`] and [`MemOut`] are in memory, tell what they hold, and fail at
//!   calls that are chosen beforehand.
//! - [`SteadyFiles`], [`SteadyInput`], [`SteadyOut`] and [`OpenGate`] never fail.
//! - [`HostFiles`], [`HostInput`] and [`HostOut`] are the system's, and tell nothing. What the
//!   system does behind them is trusted.
//!
//! A constructor that finds no memory answers `std`'s `AllocError`.
#![tactic(auto)]

mod host_files;
mod host_streams;
mod mem_files;
mod mem_input;
mod mem_out;
mod outside;
mod pieces;
mod schedule;
mod steady_files;
mod steady_streams;
mod stored;

pub use host_files::HostFiles;
pub use host_streams::{HostInput, HostOut};
pub use mem_files::MemFiles;
pub use mem_input::MemInput;
pub use mem_out::MemOut;
pub use outside::{Failed, Files, FreshFault, Gate, Input, Out, SizeFault};
pub use steady_files::SteadyFiles;
pub use steady_streams::{OpenGate, SteadyInput, SteadyOut};
