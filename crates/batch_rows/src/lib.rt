//! The rows of a query's blocks, batch after batch, in one sink: [`gather_all`] reads the blocks, 64 at a time, and has workers
//! hand the rows that pass to a [`worker_merge::SharedSink`]:
//! `gather_all(&rt, alloc, &gate, 4, &query, &job, &heads, &names, &found.fields, &found.places, &mut files, &mut sink, &mut ran)?`.
#![tactic(auto)]

mod gather;

pub use gather::gather_all;
