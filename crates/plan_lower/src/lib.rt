//! From accepted queries to jobs: [`lower`] gives the job of a query, as in `lower(alloc, &checked)?`, and [`listing`] the text of
//! a job.
#![tactic(auto)]

mod choice;
mod emitting;
mod end_lines;
mod endings;
mod functions;
mod instr_lines;
mod job_text;
mod lowering;
mod named_outputs;
mod operators;
mod paths;
mod pieces;

pub use job_text::listing;
pub use lowering::lower;
