//! Tests of what lies below the query language: the outside, cells, blocks, files and their index. Each case is a row of a
//! table, bytes beside what stands in README.md or docs/FORMAT.md for them.
#![tactic(auto)]

#[cfg(test)]
mod block_tests;
#[cfg(test)]
mod cell_tests;
#[cfg(test)]
mod device_tests;
#[cfg(test)]
mod file_tests;
#[cfg(test)]
mod range_tests;
