//! Queries over files: [`run_query`] goes from the text of a query and the names of files to the lines of an answer,
//! [`check_files`] reads files whole, and [`explain`] gives the listing of a text's job:
//! `run_query(&rt, alloc, "SELECT * FROM logs", &names, &settings, &mut files, &mut out, &gate)?`.
#![tactic(auto)]

mod accept;
mod checking;
mod compile;
mod groups;
mod listing;
mod plain;
mod query;
mod query_fault;
mod settings;
mod sorted;
mod sum;
mod text_fault;

pub use checking::check_files;
pub use listing::explain;
pub use query::run_query;
pub use query_fault::QueryFault;
pub use settings::Settings;
pub use sum::QuerySum;
pub use text_fault::TextFault;
