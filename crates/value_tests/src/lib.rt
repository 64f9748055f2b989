//! Tests of values and of what is written for them: cells and blocks, symbol tables, lines, texts of times, and the rows of
//! made logs. Each case is a row of a table, a value beside what stands in README.md or docs/FORMAT.md for it.
#![tactic(auto)]

#[cfg(test)]
mod kind_tests;
#[cfg(test)]
mod line_tests;
#[cfg(test)]
mod line_value_tests;
#[cfg(test)]
mod log_tests;
#[cfg(test)]
mod sample;
#[cfg(test)]
mod standing;
#[cfg(test)]
mod table_tests;
#[cfg(test)]
mod time_tests;
#[cfg(test)]
mod writing_tests;
