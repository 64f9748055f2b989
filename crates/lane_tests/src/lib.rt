//! Tests of the lanes: the kernels over sixteen values at once, and jobs over chunks of rows. Each case is a row of a table,
//! values beside what stands in docs/QUERIES.md for them.
#![tactic(auto)]

#[cfg(test)]
mod comparison_tests;
#[cfg(test)]
mod field_tests;
#[cfg(test)]
mod logic_tests;
#[cfg(test)]
mod looks;
#[cfg(test)]
mod number_tests;
#[cfg(test)]
mod program_tests;
#[cfg(test)]
mod text_tests;
#[cfg(test)]
mod time_tests;
