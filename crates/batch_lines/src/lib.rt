//! The lines of a plain query's blocks, batch after batch: [`scan_all`] reads the blocks, 64 at a time, has workers make their lines,
//! and puts these before it reads on: `scan_all(&rt, alloc, &gate, 4, &query, &job, &heads, &cut, &names, &found.fields,
//! &found.places, &mut files, &mut out, &mut ran)?`.
#![tactic(auto)]

mod put;
mod scan;

pub use scan::scan_all;
