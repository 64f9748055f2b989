//! Tests of the commands' words and of queries, through `snel` over files, inputs and outputs in memory. Each case is a row of a
//! table, words beside the status and the bytes that docs/QUERIES.md, docs/FORMAT.md or README.md say for them.
#![tactic(auto)]

#[cfg(test)]
mod aggregate_tests;
#[cfg(test)]
mod grid_tests;
#[cfg(test)]
mod group_tests;
#[cfg(test)]
mod order_tests;
#[cfg(test)]
mod query_tests;
#[cfg(test)]
mod tests;
