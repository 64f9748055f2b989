//! Tests of the commands over files of many blocks: packing lines, making logs, ranges of times, damaged blocks, several files
//! and several workers. Each case is a row of a table, words beside the status and the bytes that docs/QUERIES.md,
//! docs/FORMAT.md or README.md say for them.
#![tactic(auto)]

#[cfg(test)]
mod line_tests;
#[cfg(test)]
mod make_tests;
#[cfg(test)]
mod many_files_tests;
#[cfg(test)]
mod minutes_tests;
#[cfg(test)]
mod pack_tests;
#[cfg(test)]
mod schedule_tests;
